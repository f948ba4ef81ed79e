// Accesses: one at an address that isn't a multiple of its size traps.
ghost use Rattle.std.specs.Prelude.{◌≡◌};
ghost use Rattle.rv_rows.specs.declared.exception.Exception.TheVariants.{LoadMisaligned, StoreMisaligned};
ghost use Rattle.rv_rows.specs.declared.effect.Effect.{Effect};
ghost use Rattle.rv_rows.specs.Effects.{if_aligned};
ghost use Rattle.rv_rows.specs.Loads.{width_bytes, load_bytes, atomic_bytes, low_bytes};

use rv_rows::{AmoKind, Effect, Exception, LoadKind, Register, Width};

/// The low bytes of a number, as many as the width has.
#[inline]
pub fn low_bytes(width: Width, value: u64) -> u64
    ensures { result ≡ low_bytes (width_bytes width) value }
{
    match width {
        Width::Byte => value % 0x100,
        Width::Half => value % 0x1_0000,
        Width::Word => value % 0x1_0000_0000,
        Width::Double => value,
    }
}

#[inline]
fn if_aligned(width: Width, address: u64, exception: Exception, effect: Effect) -> Effect
    ensures { result ≡ if_aligned (width_bytes width) address exception effect }
{
    if address % width.bytes() as u64 == 0 {
        effect
    } else {
        Effect::Trap {
            exception,
            value: address,
        }
    }
}

#[inline]
pub fn load(kind: LoadKind, rd: Register, address: u64) -> Effect
    ensures { result ≡ if_aligned (load_bytes kind) address LoadMisaligned (Effect.Load kind rd address) }
{
    let effect = Effect::Load { kind, rd, address };
    if_aligned(kind.width(), address, Exception::LoadMisaligned, effect)
}

#[inline]
pub fn store(width: Width, address: u64, value: u64) -> Effect
    ensures { result ≡ if_aligned (width_bytes width) address StoreMisaligned
        (Effect.Store width address (low_bytes (width_bytes width) value)) }
{
    let value = low_bytes(width, value);
    let effect = Effect::Store {
        width,
        address,
        value,
    };
    if_aligned(width, address, Exception::StoreMisaligned, effect)
}

#[inline]
pub fn load_reserved(wide: bool, rd: Register, address: u64) -> Effect
    ensures { result ≡ if_aligned (atomic_bytes wide) address LoadMisaligned (Effect.LoadReserved wide rd address) }
{
    let effect = Effect::LoadReserved { wide, rd, address };
    if_aligned(
        Width::of_atomic(wide),
        address,
        Exception::LoadMisaligned,
        effect,
    )
}

#[inline]
pub fn store_conditional(wide: bool, rd: Register, address: u64, value: u64) -> Effect
    ensures { result ≡ if_aligned (atomic_bytes wide) address StoreMisaligned
        (Effect.StoreConditional wide rd address (low_bytes (atomic_bytes wide) value)) }
{
    let width = Width::of_atomic(wide);
    let value = low_bytes(width, value);
    let effect = Effect::StoreConditional {
        wide,
        rd,
        address,
        value,
    };
    if_aligned(width, address, Exception::StoreMisaligned, effect)
}

#[inline]
pub fn amo(kind: AmoKind, wide: bool, rd: Register, address: u64, value: u64) -> Effect
    ensures { result ≡ if_aligned (atomic_bytes wide) address StoreMisaligned
        (Effect.Amo kind wide rd address value) }
{
    let effect = Effect::Amo {
        kind,
        wide,
        rd,
        address,
        value,
    };
    if_aligned(
        Width::of_atomic(wide),
        address,
        Exception::StoreMisaligned,
        effect,
    )
}
