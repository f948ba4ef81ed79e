// What the vsock device asks.
ghost use Rattle.std.specs.Prelude.{◌≡◌, IfOk, OnErr};
ghost use Rattle.vm_host.specs.declared.vsock_host.HostAct.TheVariants as act;
ghost use Rattle.vm_host.specs.Hosting.{AttachesVsock, Comes, Dials, Does, IsEvent, OrRests, Rests};
ghost use Rattle.vm_outside.specs.Known.{Called, Lasts, Tells};

use vm_outside::Failed;
use vm_types::Piece;

/// What happened at the host's end.
#[derive(Clone, Copy, Debug, Drop)]
pub enum HostEvent {
    Nothing,
    /// Somebody connected, and the connection has this number.
    New { connection: u32 },
    /// 1 to 64 bytes came on a connection.
    Bytes { connection: u32, piece: Piece },
    /// A connection has ended.
    Ended { connection: u32 },
}

/// What was done at the host's end.
#[derive(Clone, Copy, Drop)]
pub enum HostAct {
    /// A port was dialled, and a connection of this number came of it, or none.
    Dialled { port: u32, answer: Option<u32> },
    /// Bytes were sent on a connection.
    Sent { connection: u32, piece: Piece },
    /// A connection was closed.
    Closed { connection: u32 },
}

/// The host's end of the vsock device.
pub trait VsockHost: Drop {
    ghost use Rattle.vm_host.specs.Hosting.{VsockKnown};

    ghost known: { Self → VsockKnown };

    /// The host's end is the one of this name from now on. What can't be opened fails later.
    fn attach(&mut self, device: u8, name: &str)
        ensures attaches { Tells (known self.old).health →
            AttachesVsock name.now (known self.old) (known self.new) }
        ensures lasts { Lasts (known self.old).health (known self.new).health }
        ensures kept { (known self.new).health.faults ≡ (known self.old).health.faults };

    /// The next of what happened, if anything has.
    fn next(&mut self) -> Result<HostEvent, Failed>
        ensures event { IfOk result IsEvent }
        ensures comes { Tells (known self.old).health →
            OrRests (known self.old) (known self.new) result (Comes (known self.old) (known self.new)) }
        ensures called { Called (known self.old).health (known self.new).health result };

    /// Dials a port, and answers the connection's number where somebody listens there.
    fn dial(&mut self, port: u32) -> Result<Option<u32>, Failed>
        ensures dials { Tells (known self.old).health →
            OrRests (known self.old) (known self.new) result (Dials port (known self.old) (known self.new)) }
        ensures called { Called (known self.old).health (known self.new).health result };

    /// Sends bytes on a connection.
    fn send(&mut self, connection: u32, piece: Piece) -> Result<(), Failed>
        ensures sends { Tells (known self.old).health →
            OrRests (known self.old) (known self.new) result
            (λ _. Does (act.Sent connection piece) (known self.old) (known self.new)) }
        ensures called { Called (known self.old).health (known self.new).health result };

    /// Closes a connection.
    fn close(&mut self, connection: u32) -> Result<(), Failed>
        ensures closes { Tells (known self.old).health →
            OrRests (known self.old) (known self.new) result
            (λ _. Does (act.Closed connection) (known self.old) (known self.new)) }
        ensures called { Called (known self.old).health (known self.new).health result };
}
