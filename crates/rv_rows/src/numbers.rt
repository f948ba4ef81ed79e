// The low 32 bits of a number, and signs extended.
ghost use Rattle.std.specs.Prelude.{◌≡◌, ◌<◌, ◌^◌};
ghost use Rattle.rv_rows.specs.Numbers.{low_word, sign_extended};

/// The low 32 bits.
#[inline]
pub fn low_word(n: u64) -> u32
    ensures { result ≡ low_word n }
{
    (n % 0x1_0000_0000) as u32
}

/// A number of `width` bits, its sign extended to 64 bits: it is shifted to the top, and back with its sign.
#[inline]
#[tactic(auto, using(crate::proofs::Signs::extended_by_shifts))]
pub fn sign_extended(width: u32, n: u64) -> u64
    requires some { 0 < width }
    requires not_all { width < 64 }
    requires of_width { n < 2 ^ width }
    ensures { result ≡ sign_extended width n }
{
    let unused = 64 - width;
    ((n << unused).cast_signed() >> unused).cast_unsigned()
}

/// A number of 32 bits, its sign extended to 64 bits.
#[inline]
pub fn sign_extended_word(n: u32) -> u64
    ensures { result ≡ sign_extended 32 n }
{
    sign_extended(32, n as u64)
}
