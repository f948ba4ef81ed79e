// The fields of a word that say which instruction it is.
ghost use Rattle.std.specs.Prelude.{◌≡◌};
ghost use Rattle.rv_decode.specs.Functions.{opcode, funct3, funct5, funct6, funct7};

use rv_rows::fields::bits;

/// Bits 0 to 6.
pub fn opcode(word: u32) -> u32
    ensures { result ≡ opcode word }
{
    bits(word, 6, 0)
}

/// Bits 12 to 14.
pub fn funct3(word: u32) -> u32
    ensures { result ≡ funct3 word }
{
    bits(word, 14, 12)
}

/// Bits 25 to 31.
pub fn funct7(word: u32) -> u32
    ensures { result ≡ funct7 word }
{
    bits(word, 31, 25)
}

/// Bits 26 to 31, beside the amount of a shift.
pub fn funct6(word: u32) -> u32
    ensures { result ≡ funct6 word }
{
    bits(word, 31, 26)
}

/// Bits 27 to 31, beside aq and rl.
pub fn funct5(word: u32) -> u32
    ensures { result ≡ funct5 word }
{
    bits(word, 31, 27)
}
