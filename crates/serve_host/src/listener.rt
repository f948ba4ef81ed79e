// Where connections come from, and where they go when they are over.
ghost use Rattle.std.specs.Prelude.{◌≡◌, IfOk, OnErr};
ghost use Rattle.serve_host.specs.Listening.{Accepts, ListenerStays, Listens, SameConnections, TakesBack};
ghost use Rattle.vm_outside.specs.Known.{Called, Lasts, Tells};

use crate::conn::Conn;
use vm_outside::Failed;

/// What an accept found.
#[derive(Drop)]
pub enum Accepted<C> {
    Conn(C),
    /// No connection waits so far, or none can be taken yet.
    NotYet,
    /// No connection comes any more.
    Ended,
}

/// Gives connections, and takes each back when it is over.
pub trait Listener<C: Conn>: Drop {
    ghost use Rattle.serve_host.specs.Listening.{ListenerKnown};

    ghost known: { Self → ListenerKnown };

    /// Listens under this path from now on.
    fn listen(&mut self, path: &str) -> Result<(), Failed>
        ensures listens { Tells (known self.old).health → Listens (known self.old) path.now result (known self.new) }
        ensures called { Called (known self.old).health (known self.new).health result };

    /// Gives the next connection. It doesn't wait for one. Where it fails, none is lost.
    fn accept(&mut self) -> Result<Accepted<C>, Failed>
        ensures accepts { IfOk result (λ got. Tells (known self.old).health →
            Accepts C.known (known self.old) got (known self.new)) }
        ensures same { OnErr result (Tells (known self.old).health → SameConnections (known self.old) (known self.new)) }
        ensures stays { ListenerStays (known self.old) (known self.new) }
        ensures called { Called (known self.old).health (known self.new).health result };

    /// Takes a connection back, which is then closed. It doesn't fail.
    fn end(&mut self, conn: C)
        ensures ended { Tells (known self.old).health → TakesBack (C.known conn) (known self.old) (known self.new) }
        ensures stays { ListenerStays (known self.old) (known self.new) }
        ensures lasts { Lasts (known self.old).health (known self.new).health }
        ensures kept { (known self.new).health.faults ≡ (known self.old).health.faults };
}
