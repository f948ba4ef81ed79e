// A frame of a link.
ghost use Rattle.std.specs.Prelude.{◌≡◌, length, MatchOption};
ghost use Rattle.vm_host.specs.Framing.{IsFrameLength};

/// 14 to 1,514 bytes.
#[derive(Drop)]
pub struct Frame {
    pub(crate) bytes: Vec<u8>,
    ghost within: { IsFrameLength (length bytes.items) },
}

impl Frame {
    ghost use Rattle.std.specs.Prelude.{◌≡◌, length};
    ghost use Rattle.outside_mem.specs.Devices.{frame_bytes};

    /// The frame of these bytes, if they are so many.
    pub fn new(bytes: Vec<u8>) -> Option<Frame>
        ensures { MatchOption result (IsFrameLength (length bytes.items) → ⊥) (λ frame. frame_bytes frame ≡ bytes.items) }
    {
        if bytes.len() < 14 || bytes.len() > 1514 {
            return None;
        }
        Some(Frame { bytes })
    }
}
