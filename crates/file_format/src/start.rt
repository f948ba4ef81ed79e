// How a file begins.
ghost use Rattle.std.specs.Prelude.{◌≡◌, ◌≤◌, ◌<◌, length};
ghost use Rattle.file_format.specs.Starts.{is_closed, is_other};

/// Whether a file is shorter than its header of `size` bytes, or its gate, byte 0, isn't open: it is at 1 alone.
pub fn is_closed(bytes: &[u8], size: usize) -> bool
    requires { 0 < size }
    ensures { result ≡ is_closed size bytes.now }
{
    bytes.len() < size || bytes[0] != 1
}

/// Whether a file has another magic and version behind its gate than these.
pub fn is_other(bytes: &[u8], magic: &[u8; 11]) -> bool
    requires { 12 ≤ length bytes.now }
    ensures { result ≡ is_other magic.now bytes.now }
{
    bytes[1..12] != magic[..]
}
