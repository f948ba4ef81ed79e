// Words that are kept decoded.
ghost use Rattle.std.specs.Prelude.{◌≡◌, ◌<◌, ◌≢◌, IfSome, None, Some, replicate, slice_index_or};
ghost use Rattle.decoded_words.specs.Words.{place_of};

use crate::decoding::Decoded;
use crate::operation::Operation;
use rv_rows::Register;
use std::marker::Model;

/// How many words are kept.
const KEPT: usize = 512;

/// Decoded words, each in the one place of the 512 that is for the address that it was fetched from. Whatever became of memory
/// since, each of them is what its own word is; so it may be done wherever that word is fetched. Contracts see them in order.
#[derive(Drop)]
pub struct DecodedWords {
    each: [Decoded; 512],
}

impl Model for DecodedWords {
    ghost use Rattle.std.specs.Prelude.{List};
    ghost use Rattle.std.specs.List.{All};
    ghost use Rattle.decoded_words.specs.declared.decoding.Decoded.{Decoded};
    ghost use Rattle.decoded_words.specs.Decoded.{IsDecoded};

    ghost Value = { List Decoded };

    ghost view = { λ s. s.each };

    ghost invariant = { λ s. All IsDecoded s.each };
}

// The place of what is fetched at this address.
#[inline(always)]
fn place_of(pc: u64) -> usize
    ensures is { result ≡ place_of pc }
    ensures there { result < 512 }
{
    (pc / 4 % KEPT as u64) as usize
}

impl DecodedWords {
    ghost use Rattle.decoded_words.specs.Decoded.{IsDecoded};
    ghost use Rattle.decoded_words.specs.Words.{Keeps, place_of, zeros};
    ghost use Rattle.decoded_words.specs.declared.decoding.Decoded.{Decoded};

    /// No word is kept: in each place stands that of zeros, which is no instruction.
    pub fn new() -> DecodedWords
        ensures { result ≡ replicate 512 zeros }
    {
        DecodedWords {
            each: [Decoded {
                value: 0,
                word: 0,
                operation: Operation::Rare,
                rd: Register::X1,
                rs1: Register::X1,
                other: Register::X0,
            }; 512],
        }
    }

    /// This word decoded, if it is kept as that of this address.
    #[inline(always)]
    pub fn find(&self, pc: u64, word: u32) -> Option<&Decoded>
        ensures is { IfSome result (λ it. IsDecoded it.now) }
        ensures word { IfSome result (λ it. it.now.word ≡ word) }
        ensures found { IfSome result (λ it. (d : Decoded) → it.now ≡ slice_index_or self.now (place_of pc) d) }
        ensures none { result ≡ None → (d : Decoded) → (slice_index_or self.now (place_of pc) d).word ≢ word }
    {
        let it = &self.each[place_of(pc)];
        if it.word != word {
            return None;
        }
        Some(it)
    }

    /// Keeps this word decoded, as that of this address, in the place of what was kept there.
    #[inline(never)]
    pub fn keep(&mut self, pc: u64, word: u32)
        ensures { Keeps pc word self.old self.new }
    {
        self.each[place_of(pc)] = Decoded::of(word);
    }
}
