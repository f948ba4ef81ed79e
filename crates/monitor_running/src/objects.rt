// What turns are given, as one object.
ghost use Rattle.std.specs.Prelude.{◌≡◌, refl};
ghost use Rattle.std.specs.Borrow.{Lends, sem};
ghost use Rattle.monitor_running.specs.Asked.{host_known};
ghost use Rattle.monitor_running.specs.Objects.{with_clock, with_disk, with_guest_words, with_host, with_link, with_trace, with_vsock};

use crate::hosting::TurnHost;
use serve_host::Trace;
use vm_host::{Clock, Disk, GuestWords, Link, VsockHost};

/// What turns of a machine are given beside the sink: the clock, the disks, the links, the host's end of the vsock device and the words
/// for entropy devices, which its actors ask, and the trace. Each is lent.
pub trait TurnObjects: Drop {
    ghost use Rattle.monitor_running.specs.Objects.{TurnKnown};
    ghost use Rattle.monitor_running.specs.declared.hosting.TurnHost.{TurnHost};
    ghost use Rattle.monitor_running.specs.contracts.hosting.TurnHost.{the_row};

    type C: Clock + Send;

    type D: Disk + Send;

    type L: Link + Send;

    type V: VsockHost + Send;

    type G: GuestWords + Send;

    type T: Trace + Send;

    ghost known: { Self → TurnKnown };

    // the same objects with this host in the place of theirs
    ghost host_as: { Self → TurnHost Self.D Self.L Self.V Self.G Self.C → Self };

    // and with one object of another
    ghost clock_as: { Self → Self.C → Self };

    ghost disk_as: { Self → Self.D → Self };

    ghost link_as: { Self → Self.L → Self };

    ghost vsock_as: { Self → Self.V → Self };

    ghost guest_words_as: { Self → Self.G → Self };

    ghost trace_as: { Self → Self.T → Self };

    /// The clock and what devices ask, both at once.
    fn host(&mut self) -> &mut TurnHost<Self::D, Self::L, Self::V, Self::G, Self::C>
        ensures* lends { sem 𝓛 (Lends Self.row (the_row Self.D.row Self.L.row Self.V.row Self.G.row Self.C.row)
            self.entry result (host_as self.old)) }
        ensures value { host_known Self.C.known Self.D.known Self.L.known Self.V.known Self.G.known result.now ≡ (known self.old).host };

    /// The clock.
    fn clock(&mut self) -> &mut Self::C
        ensures* lends { sem 𝓛 (Lends Self.row Self.C.row self.entry result (clock_as self.old)) }
        ensures value { Self.C.known result.now ≡ (known self.old).host.clock };

    /// The disks of all block devices.
    fn disk(&mut self) -> &mut Self::D
        ensures* lends { sem 𝓛 (Lends Self.row Self.D.row self.entry result (disk_as self.old)) }
        ensures value { Self.D.known result.now ≡ (known self.old).host.devices.disk };

    /// The links of all network devices.
    fn link(&mut self) -> &mut Self::L
        ensures* lends { sem 𝓛 (Lends Self.row Self.L.row self.entry result (link_as self.old)) }
        ensures value { Self.L.known result.now ≡ (known self.old).host.devices.link };

    /// The host's end of the vsock device.
    fn vsock(&mut self) -> &mut Self::V
        ensures* lends { sem 𝓛 (Lends Self.row Self.V.row self.entry result (vsock_as self.old)) }
        ensures value { Self.V.known result.now ≡ (known self.old).host.devices.vsock };

    /// The words of all entropy devices.
    fn guest_words(&mut self) -> &mut Self::G
        ensures* lends { sem 𝓛 (Lends Self.row Self.G.row self.entry result (guest_words_as self.old)) }
        ensures value { Self.G.known result.now ≡ (known self.old).host.devices.words };

    /// The trace.
    fn trace(&mut self) -> &mut Self::T
        ensures* lends { sem 𝓛 (Lends Self.row Self.T.row self.entry result (trace_as self.old)) }
        ensures value { Self.T.known result.now ≡ (known self.old).trace };

    ghost host_set: { (x : Self) (host : TurnHost Self.D Self.L Self.V Self.G Self.C) →
        known (host_as x host) ≡ with_host (known x) (host_known Self.C.known Self.D.known Self.L.known Self.V.known Self.G.known host) };

    ghost clock_set: { (x : Self) (c : Self.C) → known (clock_as x c) ≡ with_clock (known x) (Self.C.known c) };

    ghost disk_set: { (x : Self) (d : Self.D) → known (disk_as x d) ≡ with_disk (known x) (Self.D.known d) };

    ghost link_set: { (x : Self) (l : Self.L) → known (link_as x l) ≡ with_link (known x) (Self.L.known l) };

    ghost vsock_set: { (x : Self) (v : Self.V) → known (vsock_as x v) ≡ with_vsock (known x) (Self.V.known v) };

    ghost guest_words_set: { (x : Self) (g : Self.G) →
        known (guest_words_as x g) ≡ with_guest_words (known x) (Self.G.known g) };

    ghost trace_set: { (x : Self) (t : Self.T) → known (trace_as x t) ≡ with_trace (known x) (Self.T.known t) };
}

/// A host, and the trace of what its actors do.
#[derive(Drop)]
pub struct TracedHost<D, L, V, G, C, T> {
    pub host: TurnHost<D, L, V, G, C>,
    pub trace: T,
}

impl<
    D: Disk + Send,
    L: Link + Send,
    V: VsockHost + Send,
    G: GuestWords + Send,
    C: Clock + Send,
    T: Trace + Send,
> TurnObjects for TracedHost<D, L, V, G, C, T> {
    ghost use Rattle.monitor_running.specs.Traced.{traced_known};

    type C = C;

    type D = D;

    type L = L;

    type V = V;

    type G = G;

    type T = T;

    ghost known = { traced_known T.known C.known D.known L.known V.known G.known };

    ghost host_as = { λ it host. record it { host = host } };

    ghost clock_as = { λ it clock. record it { host = record it.host { clock = clock } } };

    ghost disk_as = { λ it disk. record it { host = record it.host { devices = record it.host.devices { disk = disk } } } };

    ghost link_as = { λ it link. record it { host = record it.host { devices = record it.host.devices { link = link } } } };

    ghost vsock_as = { λ it vsock. record it { host = record it.host { devices = record it.host.devices { vsock = vsock } } } };

    ghost guest_words_as = { λ it words. record it { host = record it.host { devices = record it.host.devices { guest_words = words } } } };

    ghost trace_as = { λ it trace. record it { trace = trace } };

    fn host(&mut self) -> &mut TurnHost<D, L, V, G, C> {
        &mut self.host
    }

    fn clock(&mut self) -> &mut C {
        let host = &mut self.host;
        &mut host.clock
    }

    fn disk(&mut self) -> &mut D {
        let host = &mut self.host;
        let devices = &mut host.devices;
        &mut devices.disk
    }

    fn link(&mut self) -> &mut L {
        let host = &mut self.host;
        let devices = &mut host.devices;
        &mut devices.link
    }

    fn vsock(&mut self) -> &mut V {
        let host = &mut self.host;
        let devices = &mut host.devices;
        &mut devices.vsock
    }

    fn guest_words(&mut self) -> &mut G {
        let host = &mut self.host;
        let devices = &mut host.devices;
        &mut devices.guest_words
    }

    fn trace(&mut self) -> &mut T {
        &mut self.trace
    }

    ghost host_set = { λ it host. refl };

    ghost clock_set = { λ it clock. refl };

    ghost disk_set = { λ it disk. refl };

    ghost link_set = { λ it link. refl };

    ghost vsock_set = { λ it vsock. refl };

    ghost guest_words_set = { λ it words. refl };

    ghost trace_set = { λ it trace. refl };
}
