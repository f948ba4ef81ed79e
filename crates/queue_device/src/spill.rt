// Writing bytes until none is left, or no part.
ghost use Rattle.std.specs.Prelude.{ℕ, ◌≡◌, ◌≤◌, ◌<◌, true, false, take};
ghost use Rattle.vm_types.specs.declared.op.Op.TheVariants.{Write};
ghost use Rattle.vm_types.specs.declared.reply.Reply.{Reply};
ghost use Rattle.device_trace.specs.Doing.{Gives, led};
ghost use Rattle.dev_core.specs.Pieces.{past, place, share};
ghost use Rattle.queue_device.specs.Spilling.{spill_left};

use dev_core::{Held, Scatter};
use vm_types::Op;
use vq_split::PartList;

/// Bytes that are held, and the parts that they are written to.
#[derive(Drop)]
pub struct Spill {
    pub held: Held,
    pub to: Scatter,
}

impl Spill {
    /// These bytes, for these parts.
    pub fn new(held: Held, parts: PartList) -> Spill
        ensures { result ≡ record { held = held; to = parts } }
    {
        Spill {
            held,
            to: Scatter::new(parts),
        }
    }

    /// How many of the bytes the next piece takes.
    pub fn share(&self) -> usize
        ensures share { result ≡ share self.now.held self.now.to }
        ensures most { result ≤ 64 }
    {
        self.held.as_slice().len().min(self.to.room())
    }

    /// Whether no byte is left, or no part.
    pub fn is_done(&self) -> bool
        ensures done { result ≡ true → spill_left self.now ≡ Gives self.now.to }
        ensures more { result ≡ false → 0 < share self.now.held self.now.to }
    {
        self.share() == 0
    }

    /// The write of the next piece.
    pub fn op(&self) -> Op
        ensures { result ≡ Write (place self.now.to) (take (share self.now.held self.now.to) self.now.held) }
    {
        let n = self.share();
        self.to.op(self.held.front(n))
    }

    /// Passes that piece.
    #[tactic(auto, using(crate::proofs::Spilling::spill_on))]
    pub fn give(&mut self)
        requires { 0 < share self.old.held self.old.to }
        ensures left { (reply : Reply) → spill_left self.new ≡ led (spill_left self.old) reply }
        ensures to { self.new.to ≡ past (share self.old.held self.old.to) self.old.to }
    {
        let n = self.share();
        self.held.skip(n);
        self.to.pass(n);
    }
}
