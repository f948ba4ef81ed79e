// What network devices ask.
ghost use Rattle.std.specs.Prelude.{◌≡◌, length, IfOk, OnErr};
ghost use Rattle.vm_host.specs.Framing.{AreFrameLengths, AttachesLink, IsPiece, Sends, SendsFrame, SendsPart, Takes};
ghost use Rattle.vm_outside.specs.Known.{Called, Lasts, Tells};

use vm_outside::Failed;
use vm_types::Piece;

/// The links of all network devices. A frame has 14 to 1,514 bytes; one of another length that comes is dropped.
pub trait Link: Drop {
    ghost use Rattle.vm_host.specs.Framing.{LinkKnown};

    ghost known: { Self → LinkKnown };

    /// The device's link is the one of this name from now on. What can't be opened fails later.
    fn attach(&mut self, device: u8, name: &str)
        ensures attaches { Tells (known self.old).health →
            AttachesLink device name.now (known self.old) (known self.new) }
        ensures lasts { Lasts (known self.old).health (known self.new).health }
        ensures kept { (known self.new).health.faults ≡ (known self.old).health.faults };

    /// Takes the next frame, if one has come, and answers its length in bytes.
    fn take(&mut self, device: u8) -> Result<Option<u32>, Failed>
        ensures within { IfOk result AreFrameLengths }
        ensures takes { IfOk result (λ taken. Tells (known self.old).health →
            Takes (known self.old).wires device (known self.new).wires taken) }
        ensures same { OnErr result (Tells (known self.old).health →
            (known self.new).wires ≡ (known self.old).wires) }
        ensures sockets { Tells (known self.old).health → (known self.new).sockets ≡ (known self.old).sockets }
        ensures called { Called (known self.old).health (known self.new).health result };

    /// So many bytes of the frame that was taken, from its piece of 64 bytes with this number on. That there are fewer
    /// is a failure, and so are more than 64.
    fn part(&mut self, device: u8, index: u64, count: usize) -> Result<Piece, Failed>
        ensures count { IfOk result (λ piece. length piece ≡ count) }
        ensures bytes { IfOk result (λ piece. Tells (known self.old).health →
            IsPiece ((known self.old).wires device).taken index count piece) }
        ensures same { Tells (known self.old).health → (known self.new).wires ≡ (known self.old).wires }
        ensures sockets { Tells (known self.old).health → (known self.new).sockets ≡ (known self.old).sockets }
        ensures called { Called (known self.old).health (known self.new).health result };

    /// Sends the next bytes of a frame. Where it fails, what was sent of the frame is dropped.
    fn send_part(&mut self, device: u8, piece: Piece) -> Result<(), Failed>
        ensures sends { Tells (known self.old).health →
            Sends (known self.old).wires device (known self.new).wires result (SendsPart piece) }
        ensures sockets { Tells (known self.old).health → (known self.new).sockets ≡ (known self.old).sockets }
        ensures called { Called (known self.old).health (known self.new).health result };

    /// The frame whose parts were sent is whole. Where it fails, the frame is dropped.
    fn send_end(&mut self, device: u8) -> Result<(), Failed>
        ensures sends { Tells (known self.old).health →
            Sends (known self.old).wires device (known self.new).wires result SendsFrame }
        ensures sockets { Tells (known self.old).health → (known self.new).sockets ≡ (known self.old).sockets }
        ensures called { Called (known self.old).health (known self.new).health result };
}
