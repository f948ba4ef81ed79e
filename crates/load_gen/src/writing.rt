// Texts in pieces to a sink.
ghost use Rattle.std.specs.Prelude.{◌≡◌, ◌++◌};
ghost use Rattle.std.specs.Fmt.{decimal};
ghost use Rattle.script_words.specs.Numbers.{word_text};
ghost use Rattle.vm_outside.specs.Known.{Called, Tells};
ghost use Rattle.vm_outside.specs.Passing.{TakesAll};

use itoa::Buffer;
use script_words::hex_digit;
use vm_outside::{Failed, Sink, write_three};

// A number between two texts.
pub fn write_numbered<K: Sink>(
    sink: &mut K,
    front: &[u8],
    number: u64,
    end: &[u8],
) -> Result<(), Failed>
    ensures takes { Tells (K.known sink.old).health →
        TakesAll (K.known sink.old).taken (K.known sink.new).taken result
        ((front.now ++ decimal number) ++ end.now) }
    ensures called { Called (K.known sink.old).health (K.known sink.new).health result }
{
    let mut buffer = Buffer::new();
    let digits = buffer.format(number).as_bytes();
    write_three(sink, front, digits, end)
}

// The sixteen digits of a word.
pub fn word_digits(word: u64) -> [u8; 16]
    ensures { result ≡ word_text word }
{
    let [a, b, c, d, e, f, g, h] = word.to_be_bytes();
    [
        hex_digit(a / 16),
        hex_digit(a % 16),
        hex_digit(b / 16),
        hex_digit(b % 16),
        hex_digit(c / 16),
        hex_digit(c % 16),
        hex_digit(d / 16),
        hex_digit(d % 16),
        hex_digit(e / 16),
        hex_digit(e % 16),
        hex_digit(f / 16),
        hex_digit(f % 16),
        hex_digit(g / 16),
        hex_digit(g % 16),
        hex_digit(h / 16),
        hex_digit(h % 16),
    ]
}
