// Words of a line.
ghost use Rattle.std.specs.Prelude.{◌≡◌, ◌++◌, ◌<◌, IfOk, OnOk};
ghost use Rattle.std.specs.Fmt.{decimal};
ghost use Rattle.script_words.specs.Numbers.{address_text, hex_digit, hex_of, word_text};
ghost use Rattle.script_words.specs.Actors.{actor_word};

use itoa::Buffer;
use std::alloc::{AllocError, Global};
use vm_types::{ActorId, ByteList};

/// Puts two lower-case digits a byte at the end.
pub fn append_hex(line: &mut ByteList, bytes: &[u8]) -> Result<(), AllocError>
    ensures { OnOk result (line.new ≡ line.old ++ hex_of bytes.now) }
{
    for byte in bytes {
        line.append(&[hex_digit(*byte / 16), hex_digit(*byte % 16)])?;
    }
    Ok(())
}

/// A lower-case hexadecimal digit.
pub fn hex_digit(nibble: u8) -> u8
    requires { nibble < 16 }
    ensures { result ≡ hex_digit nibble }
{
    if nibble < 10 {
        b'0' + nibble
    } else {
        b'a' - 10 + nibble
    }
}

/// Puts the sixteen digits of a word at the end.
pub fn append_word(line: &mut ByteList, word: u64) -> Result<(), AllocError>
    ensures { OnOk result (line.new ≡ line.old ++ word_text word) }
{
    append_hex(line, &word.to_be_bytes())?;
    Ok(())
}

/// Puts a decimal number at the end.
pub fn append_number(line: &mut ByteList, number: u64) -> Result<(), AllocError>
    ensures { OnOk result (line.new ≡ line.old ++ decimal number) }
{
    let mut buffer = Buffer::new();
    line.append(buffer.format(number).as_bytes())?;
    Ok(())
}

/// A word and a number behind it.
pub fn numbered_words(alloc: Global, word: &[u8], number: u64) -> Result<ByteList, AllocError>
    ensures { IfOk result (λ words. words ≡ word.now ++ decimal number) }
{
    let mut words = ByteList::copy_of(alloc, word)?;
    append_number(&mut words, number)?;
    Ok(words)
}

/// The word of an actor.
pub fn actor_word(alloc: Global, actor: ActorId) -> Result<ByteList, AllocError>
    ensures { IfOk result (λ word. word ≡ actor_word actor) }
{
    match actor {
        ActorId::Timer => Ok(ByteList::copy_of(alloc, b"t")?),
        ActorId::Hart(hart) => Ok(numbered_words(alloc, b"h", hart as u64)?),
        ActorId::Device(device) => Ok(numbered_words(alloc, b"d", device as u64)?),
    }
}
