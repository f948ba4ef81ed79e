// The operations of the base.
ghost use Rattle.std.specs.Prelude.{◌≡◌, ◌%◌, ◌^◌};
ghost use Rattle.std.specs.Int.{int_shr};
ghost use Rattle.rv_rows.specs.Numbers.{signed_64, signed_32, modulo_64};
ghost use Rattle.rv_rows.specs.Alu.{alu};

use rv_rows::AluOp;
use rv_rows::numbers::{low_word, sign_extended_word};

#[inline]
fn sra(a: u64, b: u64) -> u64
    ensures { result ≡ modulo_64 (int_shr (signed_64 a) (b % 2 ^ 6)) }
{
    (a.cast_signed() >> (b % 64) as u32).cast_unsigned()
}

#[inline]
fn sraw(a: u64, b: u64) -> u64
    ensures { result ≡ modulo_64 (int_shr (signed_32 a) (b % 2 ^ 5)) }
{
    let shifted = low_word(a).cast_signed() >> (b % 32) as u32;
    (shifted as i64).cast_unsigned()
}

/// What an operation of the base computes of two values (unprivileged manual, 2.4 and 5.2).
#[inline(always)]
pub fn alu(op: AluOp, a: u64, b: u64) -> u64
    ensures { result ≡ alu op a b }
{
    match op {
        AluOp::Add => a.wrapping_add(b),
        AluOp::Sub => a.wrapping_sub(b),
        AluOp::Sll => a << (b % 64),
        AluOp::Slt => (a.cast_signed() < b.cast_signed()) as u64,
        AluOp::Sltu => (a < b) as u64,
        AluOp::Xor => a ^ b,
        AluOp::Srl => a >> (b % 64),
        AluOp::Sra => sra(a, b),
        AluOp::Or => a | b,
        AluOp::And => a & b,
        AluOp::Addw => sign_extended_word(low_word(a.wrapping_add(b))),
        AluOp::Subw => sign_extended_word(low_word(a.wrapping_sub(b))),
        AluOp::Sllw => sign_extended_word(low_word(a << (b % 32))),
        AluOp::Srlw => sign_extended_word(low_word(a) >> (b % 32) as u32),
        AluOp::Sraw => sraw(a, b),
    }
}
