// What a load puts into its register.
ghost use Rattle.std.specs.Prelude.{◌≡◌};
ghost use Rattle.rv_rows.specs.Loads.{load_value, atomic_load_value};

use rv_rows::LoadKind;
use rv_rows::numbers::{low_word, sign_extended, sign_extended_word};

/// What a load puts into its register, by the number in memory, the low byte first, of which it takes the low 1, 2, 4
/// or 8 bytes (unprivileged manual, 2.6 and 5.3).
#[inline]
pub fn load_value(kind: LoadKind, n: u64) -> u64
    ensures { result ≡ load_value kind n }
{
    match kind {
        LoadKind::Byte => sign_extended(8, n % 0x100),
        LoadKind::Half => sign_extended(16, n % 0x1_0000),
        LoadKind::Word => sign_extended_word(low_word(n)),
        LoadKind::Double => n,
        LoadKind::ByteUnsigned => n % 0x100,
        LoadKind::HalfUnsigned => n % 0x1_0000,
        LoadKind::WordUnsigned => low_word(n) as u64,
    }
}

/// What LR or an atomic memory operation puts into its register, by the number in memory, of which it takes the low
/// 32 bits where it isn't wide (unprivileged manual, 8.2 and 8.4).
#[inline]
pub fn atomic_load_value(wide: bool, n: u64) -> u64
    ensures { result ≡ atomic_load_value wide n }
{
    if wide {
        n
    } else {
        sign_extended_word(low_word(n))
    }
}
