// What is loaded.

/// What a start loads.
#[derive(Clone, Copy, Drop)]
pub struct Loads<'a> {
    pub image: &'a [u8],
    /// The initial RAM disk, if there is one.
    pub initrd: Option<&'a [u8]>,
    /// The flattened device tree.
    pub tree: &'a [u8],
}
