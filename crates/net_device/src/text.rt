// A header and a frame behind it.
ghost use Rattle.std.specs.Prelude.{◌≡◌, ◌<◌, ◌≤◌, ◌+◌, ◌++◌, [], length, take, drop, true, if◌then◌else◌, Some, None};
ghost use Rattle.net_device.specs.Frames.{header, is_headed, is_text};

use std::marker::Model;
use vm_types::Piece;

/// The header of a frame for the driver (VIRTIO 1.2, 5.1.6.1).
const HEADER: [u8; 12] = [0, 0, 0, 0, 0, 0, 0, 0, 0, 0, 1, 0];

/// The header of 12 bytes and as much of a frame of at most 1,514 bytes as has come; or no byte.
#[derive(Drop)]
pub struct Text {
    bytes: [u8; 1526],
    len: usize,
}

impl Model for Text {
    ghost use Rattle.std.specs.Prelude.{◌≡◌, ◌≤◌, List, ℕ, take, length, true};
    ghost use Rattle.net_device.specs.Frames.{is_headed};

    ghost Value = { List ℕ };

    ghost view = { λ t. take t.len t.bytes };

    ghost invariant = { λ t. (t.len ≤ 1526) × (length t.bytes ≡ 1526) × (is_headed (take t.len t.bytes) ≡ true) };
}

// Whether these bytes begin with the header, if there are any.
fn is_headed(bytes: &[u8]) -> bool
    ensures { result ≡ is_headed bytes.now }
{
    if bytes.len() < 12 {
        bytes.len() == 0
    } else {
        bytes[..12] == HEADER[..]
    }
}

impl Text {
    /// No byte.
    pub(crate) fn new() -> Text
        ensures { result ≡ [] }
    {
        Text {
            bytes: [0; 1526],
            len: 0,
        }
    }

    /// These bytes. None where there are more than 1,526, or some that don't begin with the header.
    #[tactic(auto, using(crate::proofs::Headed::headed_same))]
    pub fn copy_of(bytes: &[u8]) -> Option<Text>
        ensures { result ≡ (if is_text bytes.now then Some bytes.now else None) }
    {
        if bytes.len() > 1526 || !is_headed(bytes) {
            return None;
        }
        let mut text = [0; 1526];
        text[..bytes.len()].copy_from_slice(bytes);
        Some(Text {
            bytes: text,
            len: bytes.len(),
        })
    }

    pub fn as_slice(&self) -> &[u8]
        ensures bytes { result.now ≡ self.now }
        ensures most { length result.now ≤ 1526 }
        ensures text { is_text result.now ≡ true }
    {
        &self.bytes[..self.len]
    }

    /// The same bytes.
    pub(crate) fn again(&self) -> Text
        ensures { result ≡ self.now }
    {
        Text {
            bytes: self.bytes,
            len: self.len,
        }
    }

    /// No byte any more.
    pub(crate) fn clear(&mut self)
        ensures { self.new ≡ [] }
    {
        self.len = 0;
    }

    /// The header alone.
    #[tactic(auto, using(crate::proofs::Headed::headed_begun))]
    pub(crate) fn begin(&mut self)
        ensures { self.new ≡ header }
    {
        self.bytes[..12].copy_from_slice(&HEADER);
        self.len = 12;
    }

    pub(crate) fn len(&self) -> usize
        ensures len { result ≡ length self.now }
        ensures most { result ≤ 1526 }
    {
        self.len
    }

    /// One more piece at the end, behind the header.
    pub(crate) fn append(&mut self, piece: &Piece)
        requires begun { 0 < length self.old }
        requires most { length self.old + length piece.now ≤ 1526 }
        ensures { self.new ≡ self.old ++ piece.now }
    {
        let piece = piece.as_slice();
        let end = self.len + piece.len();
        self.bytes[self.len..end].copy_from_slice(piece);
        self.len = end;
    }

    /// So many bytes from a place on.
    pub(crate) fn piece(&self, at: usize, n: usize) -> Piece
        requires most { n ≤ 64 }
        requires there { at + n ≤ length self.now }
        ensures { result ≡ take n (drop at self.now) }
    {
        let bytes = &self.bytes[..self.len];
        Piece::from_slice(&bytes[at..][..n])
    }
}
