// The nine operations.
ghost use Rattle.std.specs.Prelude.{◌≡◌, ◌%◌, ◌^◌};
ghost use Rattle.std.specs.Int.{w32, w64};
ghost use Rattle.guest_memory.specs.Amo.{amo_at, amo_value};

use vm_types::AmoKind;

#[inline]
fn amo_double(kind: AmoKind, old: u64, value: u64) -> u64
    ensures { result ≡ amo_at w64 kind old value }
{
    match kind {
        AmoKind::Swap => value,
        AmoKind::Add => old.wrapping_add(value),
        AmoKind::Xor => old ^ value,
        AmoKind::And => old & value,
        AmoKind::Or => old | value,
        AmoKind::Min => if old.cast_signed() < value.cast_signed() {
            old
        } else {
            value
        },
        AmoKind::Max => if old.cast_signed() < value.cast_signed() {
            value
        } else {
            old
        },
        AmoKind::MinUnsigned => if old < value { old } else { value },
        AmoKind::MaxUnsigned => if old < value { value } else { old },
    }
}

#[inline]
fn amo_word(kind: AmoKind, old: u32, value: u32) -> u32
    ensures { result ≡ amo_at w32 kind old value }
{
    match kind {
        AmoKind::Swap => value,
        AmoKind::Add => old.wrapping_add(value),
        AmoKind::Xor => old ^ value,
        AmoKind::And => old & value,
        AmoKind::Or => old | value,
        AmoKind::Min => if old.cast_signed() < value.cast_signed() {
            old
        } else {
            value
        },
        AmoKind::Max => if old.cast_signed() < value.cast_signed() {
            value
        } else {
            old
        },
        AmoKind::MinUnsigned => if old < value { old } else { value },
        AmoKind::MaxUnsigned => if old < value { value } else { old },
    }
}

/// The low 32 bits.
#[inline]
fn word(n: u64) -> u32
    ensures { result ≡ n % 2 ^ 32 }
{
    (n % 0x1_0000_0000) as u32
}

/// What an atomic memory operation stores, by the number that was in memory and the one that is given: of 8 bytes
/// where it is wide, else of 4, and then of either the low 32 bits count (unprivileged manual, 8.4).
pub fn amo_value(kind: AmoKind, wide: bool, old: u64, value: u64) -> u64
    ensures { result ≡ amo_value kind wide old value }
{
    if wide {
        amo_double(kind, old, value)
    } else {
        amo_word(kind, word(old), word(value)) as u64
    }
}
