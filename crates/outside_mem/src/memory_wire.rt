// The wire of one network device in memory.
ghost use Rattle.std.specs.Prelude.{◌≡◌, length, IfSome, MatchOption, OnOk, OnErr};
ghost use Rattle.outside_mem.specs.Devices.{wire_of};
ghost use Rattle.vm_host.specs.Framing.{AreFrameLengths, Drops, IsPiece, SendsFrame, SendsPart, TakesFrame};

use crate::frame::Frame;
use link_frames::piece_of;
use std::alloc::{AllocError, Global};
use std::collections::VecDeque;
use std::mem::replace;
use vm_types::{ByteList, Piece};

/// The frames that come, the last that was taken, those that were sent, and what is being sent.
#[derive(Drop)]
pub struct MemoryWire {
    pub(crate) coming: VecDeque<Frame>,
    pub(crate) taken: ByteList,
    pub(crate) sent: Vec<ByteList>,
    pub(crate) begun: ByteList,
    alloc: Global,
}

impl MemoryWire {
    ghost use Rattle.std.specs.Prelude.{[], map};
    ghost use Rattle.outside_mem.specs.Devices.{frame_bytes};

    /// These frames come on it, in order.
    pub fn new(alloc: Global, coming: VecDeque<Frame>) -> MemoryWire
        ensures { wire_of result ≡ record {
          coming = map frame_bytes coming.items;
          taken = [];
          sent = [];
          begun = [];
        } }
    {
        MemoryWire {
            coming,
            taken: ByteList::new(alloc),
            sent: Vec::new(alloc),
            begun: ByteList::new(alloc),
            alloc,
        }
    }

    /// The frames that were sent, the oldest first.
    pub fn sent(&self) -> &[ByteList]
        ensures { result.now ≡ (wire_of self.now).sent }
    {
        &self.sent
    }

    // Takes the next frame, and answers its length.
    pub(crate) fn take(&mut self) -> Option<u32>
        ensures within { AreFrameLengths result }
        ensures takes { MatchOption result (wire_of self.new ≡ wire_of self.old)
            (λ count. TakesFrame count (wire_of self.old) (wire_of self.new)) }
    {
        if self.coming.is_empty() {
            return None;
        }
        let frame = self.coming.pop_front()?;
        let count = frame.bytes.len() as u32;
        self.taken = ByteList::from_vec(frame.bytes);
        Some(count)
    }

    // So many bytes of the frame that was taken, from that piece on, if there are.
    pub(crate) fn part(&self, index: u64, count: usize) -> Option<Piece>
        ensures count { IfSome result (λ piece. length piece ≡ count) }
        ensures bytes { IfSome result (λ piece. IsPiece (wire_of self.now).taken index count piece) }
    {
        piece_of(self.taken.as_slice(), index, count)
    }

    // Drops what is being sent.
    pub(crate) fn drop_begun(&mut self)
        ensures { Drops (wire_of self.old) (wire_of self.new) }
    {
        self.begun = ByteList::new(self.alloc);
    }

    // An `Err` changes nothing.
    pub(crate) fn send_part(&mut self, piece: &Piece) -> Result<(), AllocError>
        ensures sends { OnOk result (SendsPart piece.now (wire_of self.old) (wire_of self.new)) }
        ensures same { OnErr result (wire_of self.new ≡ wire_of self.old) }
    {
        self.begun.append(piece.as_slice())
    }

    // An `Err` changes nothing.
    pub(crate) fn send_end(&mut self) -> Result<(), AllocError>
        ensures sends { OnOk result (SendsFrame (wire_of self.old) (wire_of self.new)) }
        ensures same { OnErr result (wire_of self.new ≡ wire_of self.old) }
    {
        self.sent.reserve(1)?;
        let whole = replace(&mut self.begun, ByteList::new(self.alloc));
        self.sent.push_reserved(whole);
        Ok(())
    }
}
