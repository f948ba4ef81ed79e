// How much an access takes, and what becomes of it.
ghost use Rattle.std.specs.Prelude.{◌≡◌, ◌<◌};
ghost use Rattle.rv_rows.specs.Loads.{load_width, width_bytes, atomic_width};

/// How many bytes an access takes, of a store the low ones of its register: 1, 2, 4 or 8 (unprivileged manual, 2.6
/// and 5.3). The instructions of the extension A take 4, or 8 where they are `wide` (chapter 8).
#[derive(Clone, Copy, Debug, Drop)]
pub enum Width {
    Byte,
    Half,
    Word,
    Double,
}

/// How many bytes a load takes, 1, 2, 4 or 8, and whether it extends their sign or, in the unsigned forms, zeros
/// (unprivileged manual, 2.6 and 5.3).
#[derive(Clone, Copy, Debug, Drop)]
pub enum LoadKind {
    Byte,
    Half,
    Word,
    Double,
    ByteUnsigned,
    HalfUnsigned,
    WordUnsigned,
}

impl Width {
    /// How many bytes an instruction of the extension A takes: 8 where it is wide, else 4.
    #[inline]
    pub fn of_atomic(wide: bool) -> Width
        ensures { result ≡ atomic_width wide }
    {
        if wide { Width::Double } else { Width::Word }
    }

    /// The number of bytes.
    #[inline]
    pub fn bytes(self) -> usize
        ensures is { result ≡ width_bytes self }
        ensures some { 0 < result }
    {
        match self {
            Width::Byte => 1,
            Width::Half => 2,
            Width::Word => 4,
            Width::Double => 8,
        }
    }
}

impl LoadKind {
    /// How many bytes the load takes.
    #[inline]
    pub fn width(self) -> Width
        ensures { result ≡ load_width self }
    {
        match self {
            LoadKind::Byte | LoadKind::ByteUnsigned => Width::Byte,
            LoadKind::Half | LoadKind::HalfUnsigned => Width::Half,
            LoadKind::Word | LoadKind::WordUnsigned => Width::Word,
            LoadKind::Double => Width::Double,
        }
    }
}
