// How much memory a guest is given.

/// The most memory that a guest is given, in MiB: 1 TiB.
pub const MOST_MIB: u64 = 1 << 20;
