// The operations of the extension M.
ghost use Rattle.std.specs.Prelude.{◌≡◌, int_div};
ghost use Rattle.std.specs.Int.{int_shr, w32, IsNonZero};
ghost use Rattle.rv_rows.specs.Numbers.{modulo_64, modulo_32};
ghost use Rattle.rv_rows.specs.declared.alu.MulDivOp.{MulDivOp};
ghost use Rattle.rv_rows.specs.MulDiv.{muldiv};

use rv_rows::MulDivOp;
use rv_rows::numbers::{low_word, sign_extended_word};

/// The high 64 bits of a product.
#[inline]
fn high(product: i128) -> u64
    ensures { result ≡ modulo_64 (int_shr product 64) }
{
    ((product >> 64) as i64).cast_unsigned()
}

#[inline]
fn mulh(a: u64, b: u64) -> u64
    ensures { result ≡ muldiv MulDivOp.Mulh a b }
{
    high(a.cast_signed() as i128 * b.cast_signed() as i128)
}

#[inline]
fn mulhsu(a: u64, b: u64) -> u64
    ensures { result ≡ muldiv MulDivOp.Mulhsu a b }
{
    high(a.cast_signed() as i128 * b as i128)
}

#[inline]
fn mulhu(a: u64, b: u64) -> u64
    ensures { result ≡ muldiv MulDivOp.Mulhu a b }
{
    ((a as u128 * b as u128) >> 64) as u64
}

#[inline]
fn div(a: u64, b: u64) -> u64
    ensures { result ≡ muldiv MulDivOp.Div a b }
{
    if b == 0 {
        u64::MAX
    } else {
        a.cast_signed()
            .wrapping_div(b.cast_signed())
            .cast_unsigned()
    }
}

#[inline]
fn rem(a: u64, b: u64) -> u64
    ensures { result ≡ muldiv MulDivOp.Rem a b }
{
    if b == 0 {
        a
    } else {
        a.cast_signed()
            .wrapping_rem(b.cast_signed())
            .cast_unsigned()
    }
}

#[inline]
fn word_quotient(a: i32, b: i32) -> u32
    requires { IsNonZero w32 b }
    ensures { result ≡ modulo_32 (int_div a b) }
{
    a.wrapping_div(b).cast_unsigned()
}

#[inline]
fn divw(a: u64, b: u64) -> u64
    ensures { result ≡ muldiv MulDivOp.Divw a b }
{
    let a = low_word(a).cast_signed();
    let b = low_word(b);
    if b == 0 {
        u64::MAX
    } else {
        sign_extended_word(word_quotient(a, b.cast_signed()))
    }
}

#[inline]
fn divuw(a: u64, b: u64) -> u64
    ensures { result ≡ muldiv MulDivOp.Divuw a b }
{
    let b = low_word(b);
    if b == 0 {
        u64::MAX
    } else {
        sign_extended_word(low_word(a) / b)
    }
}

#[inline]
fn remw(a: u64, b: u64) -> u64
    ensures { result ≡ muldiv MulDivOp.Remw a b }
{
    let a = low_word(a);
    let b = low_word(b);
    if b == 0 {
        sign_extended_word(a)
    } else {
        sign_extended_word(
            a.cast_signed()
                .wrapping_rem(b.cast_signed())
                .cast_unsigned(),
        )
    }
}

#[inline]
fn remuw(a: u64, b: u64) -> u64
    ensures { result ≡ muldiv MulDivOp.Remuw a b }
{
    let a = low_word(a);
    let b = low_word(b);
    sign_extended_word(if b == 0 { a } else { a % b })
}

/// What an operation of the extension M computes of two values (unprivileged manual, 7.1 and 7.2).
#[inline(never)]
pub fn muldiv(op: MulDivOp, a: u64, b: u64) -> u64
    ensures { result ≡ muldiv op a b }
{
    match op {
        MulDivOp::Mul => a.wrapping_mul(b),
        MulDivOp::Mulh => mulh(a, b),
        MulDivOp::Mulhsu => mulhsu(a, b),
        MulDivOp::Mulhu => mulhu(a, b),
        MulDivOp::Div => div(a, b),
        MulDivOp::Divu => if b == 0 { u64::MAX } else { a / b },
        MulDivOp::Rem => rem(a, b),
        MulDivOp::Remu => if b == 0 { a } else { a % b },
        MulDivOp::Mulw => sign_extended_word(low_word(a.wrapping_mul(b))),
        MulDivOp::Divw => divw(a, b),
        MulDivOp::Divuw => divuw(a, b),
        MulDivOp::Remw => remw(a, b),
        MulDivOp::Remuw => remuw(a, b),
    }
}
