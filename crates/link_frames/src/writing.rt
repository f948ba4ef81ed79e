// A frame as bytes of a stream.
ghost use Rattle.std.specs.Prelude.{◌≡◌, ◌<◌, ◌^◌, ◌++◌, ◌↔◌, ◌⊎◌, IsTrue, length, OnErr, OnOk};
ghost use Rattle.std.specs.Int.{w32, to_be_bytes};
ghost use Rattle.vm_host.specs.Framing.{IsFrameLength};
ghost use Rattle.link_frames.specs.Stream.{frame_bytes};

use std::alloc::AllocError;

/// Whether a link has frames of so many bytes: 14 to 1,514.
pub fn is_frame_length(count: usize) -> bool
    ensures { IsTrue result ↔ IsFrameLength count }
{
    14 <= count && count <= 1514
}

/// Puts a frame at the end of a stream's bytes, behind its length. After an `Err`, which is want of memory, its length may stand there,
/// and nothing else of it.
pub fn put_frame(out: &mut Vec<u8>, frame: &[u8]) -> Result<(), AllocError>
    requires { length frame.now < 2 ^ 32 }
    ensures put { OnOk result (out.new.items ≡ out.old.items ++ frame_bytes frame.now) }
    ensures left { OnErr result ((out.new.items ≡ out.old.items)
        ⊎ (out.new.items ≡ out.old.items ++ to_be_bytes w32 (length frame.now))) }
{
    let count = frame.len() as u32;
    out.extend_from_slice(&count.to_be_bytes())?;
    out.extend_from_slice(frame)
}
