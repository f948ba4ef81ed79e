// A piece of a frame.
ghost use Rattle.std.specs.Prelude.{◌≡◌, ◌≤◌, ◌<◌, ◌+◌, ◌*◌, ◌↔◌, ◌⊎◌, length, IfSome, IsNone, IsTrue};
ghost use Rattle.vm_host.specs.Framing.{IsPiece};

use vm_types::Piece;

// Whether a frame has so many bytes from the piece with this number on, whatever the number is.
fn has(frame: &[u8], index: u64, count: usize) -> bool
    ensures { IsTrue result ↔ (64 * index + count ≤ length frame.now) }
{
    count <= frame.len() && index <= ((frame.len() - count) / Piece::MOST) as u64
}

/// So many bytes of a frame, from its piece of 64 bytes with this number on. None where it ends before them, or where they are
/// more than 64.
pub fn piece_of(frame: &[u8], index: u64, count: usize) -> Option<Piece>
    ensures none { IsNone result ↔ ((64 < count) ⊎ (length frame.now < 64 * index + count)) }
    ensures count { IfSome result (λ piece. length piece ≡ count) }
    ensures bytes { IfSome result (λ piece. IsPiece frame.now index count piece) }
{
    if count > Piece::MOST || !has(frame, index, count) {
        return None;
    }
    let begin = Piece::MOST * index as usize;
    Some(Piece::from_slice(&frame[begin..begin + count]))
}
