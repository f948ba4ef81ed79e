// What has come of a frame, and what the next bytes come to.

/// What has come of the next frame.
#[derive(Drop)]
pub enum Coming {
    /// Fewer than the four bytes of its length.
    Length { bytes: Vec<u8> },
    /// Its length, and fewer bytes than that.
    Frame { count: u32, bytes: Vec<u8> },
    /// The length of one that is dropped, and how many of its bytes are still to come.
    Dropped { count: u32, left: u32 },
}

/// What the next bytes of a stream were.
#[derive(Drop)]
pub enum Fed {
    /// No frame ends with them.
    More,
    /// This frame ends with them.
    Frame(Vec<u8>),
    /// A frame of another length than a link's frames have ends with them.
    Dropped,
}
