// The fields of a word and its immediates.
ghost use Rattle.std.specs.Prelude.{◌≡◌, ◌+◌, ◌-◌, ◌<◌, ◌≤◌, ◌^◌};
ghost use Rattle.rv_rows.specs.Fields.{bits, rd_field, rs1_field, rs2_field, csr_field, i_immediate, s_immediate, b_immediate, u_immediate, j_immediate, shift_amount, word_shift_amount, csr_immediate};

use crate::numbers::sign_extended;
use crate::register::Register;

/// Bits `high` to `low` of the word: `inst[high:low]` in the manual.
pub fn bits(word: u32, high: u32, low: u32) -> u32
    requires order { low ≤ high }
    requires some { high < 32 }
    requires not_all { high - low < 31 }
    ensures is { result ≡ bits high low word }
    ensures bound { result < 2 ^ (high + 1 - low) }
{
    (word >> low) % (1 << (high + 1 - low))
}

/// Bits 7 to 11: the destination.
pub fn rd(word: u32) -> Register
    ensures { result ≡ rd_field word }
{
    Register::from_number(bits(word, 11, 7))
}

/// Bits 15 to 19: the first source.
pub fn rs1(word: u32) -> Register
    ensures { result ≡ rs1_field word }
{
    Register::from_number(bits(word, 19, 15))
}

/// Bits 20 to 24: the second source.
pub fn rs2(word: u32) -> Register
    ensures { result ≡ rs2_field word }
{
    Register::from_number(bits(word, 24, 20))
}

/// Bits 20 to 31: the number of a CSR.
pub fn csr(word: u32) -> u32
    ensures { result ≡ csr_field word }
{
    bits(word, 31, 20)
}

/// Bits 15 to 19: the immediate of a CSR instruction, zero-extended.
pub fn csr_immediate(word: u32) -> u64
    ensures { result ≡ csr_immediate word }
{
    bits(word, 19, 15) as u64
}

/// The immediate of the I-type.
pub fn i_immediate(word: u32) -> u64
    ensures { result ≡ i_immediate word }
{
    sign_extended(12, bits(word, 31, 20) as u64)
}

/// The immediate of the S-type.
pub fn s_immediate(word: u32) -> u64
    ensures { result ≡ s_immediate word }
{
    let n = bits(word, 31, 25) * 0x20 + bits(word, 11, 7);
    sign_extended(12, n as u64)
}

/// The immediate of the B-type.
pub fn b_immediate(word: u32) -> u64
    ensures { result ≡ b_immediate word }
{
    let n = bits(word, 31, 31) * 0x1000
        + bits(word, 7, 7) * 0x800
        + bits(word, 30, 25) * 0x20
        + bits(word, 11, 8) * 2;
    sign_extended(13, n as u64)
}

/// The immediate of the U-type.
pub fn u_immediate(word: u32) -> u64
    ensures { result ≡ u_immediate word }
{
    let n = bits(word, 31, 12) * 0x1000;
    sign_extended(32, n as u64)
}

/// The immediate of the J-type.
pub fn j_immediate(word: u32) -> u64
    ensures { result ≡ j_immediate word }
{
    let n = bits(word, 31, 31) * 0x10_0000
        + bits(word, 19, 12) * 0x1000
        + bits(word, 20, 20) * 0x800
        + bits(word, 30, 21) * 2;
    sign_extended(21, n as u64)
}

/// Bits 20 to 25: the amount of a shift.
pub fn shift_amount(word: u32) -> u64
    ensures { result ≡ shift_amount word }
{
    bits(word, 25, 20) as u64
}

/// Bits 20 to 24: the amount of a shift of a word.
pub fn word_shift_amount(word: u32) -> u64
    ensures { result ≡ word_shift_amount word }
{
    bits(word, 24, 20) as u64
}
