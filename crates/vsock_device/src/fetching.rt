// Reading a packet's header.
ghost use Rattle.std.specs.Prelude.{◌≡◌, ◌<◌, ◌≤◌, if◌then◌else◌, length, true, Some, None};
ghost use Rattle.vm_types.specs.declared.op.Op.TheVariants.{Read};
ghost use Rattle.vm_types.specs.Fits.{fits};
ghost use Rattle.device_trace.specs.Doing.{led};
ghost use Rattle.dev_core.specs.Collecting.{collect_left};
ghost use Rattle.dev_core.specs.Pieces.{past, place, room};
ghost use Rattle.vsock_device.specs.Work.{is_fetching};

use dev_core::Collect;
use queue_device::collect_again;
use std::marker::Model;
use vm_types::{Op, Reply};

/// Fewer than the 44 bytes of a header that came, and the parts that more are read from.
#[derive(Drop)]
pub struct Fetching {
    inner: Collect,
}

impl Model for Fetching {
    ghost use Rattle.std.specs.Prelude.{◌<◌, length};
    ghost use Rattle.dev_core.specs.declared.collect.Collect.{Collect};
    ghost use Rattle.dev_core.specs.Pieces.{room};

    ghost Value = { Collect };

    ghost view = { λ f. f.inner };

    ghost invariant = { λ f. (length f.inner.held < 44) × (0 < room f.inner.from) };
}

impl Fetching {
    /// These bytes came, and there are more.
    pub(crate) fn new(from: Collect) -> Fetching
        requires short { length from.held < 44 }
        requires more { 0 < room from.from }
        ensures { result ≡ from }
    {
        Fetching { inner: from }
    }

    /// These bytes came, where they are fewer than a header has and there are more.
    pub fn from_parts(from: Collect) -> Option<Fetching>
        ensures { result ≡ (if is_fetching from then Some from else None) }
    {
        if from.held.as_slice().len() < 44 && 0 < from.from.room() {
            Some(Fetching { inner: from })
        } else {
            None
        }
    }

    /// What came, and the parts that are left.
    pub fn inner(&self) -> &Collect
        ensures from { result.now ≡ self.now }
        ensures short { length result.now.held < 44 }
        ensures more { 0 < room result.now.from }
    {
        &self.inner
    }

    /// The same ones.
    pub(crate) fn again(&self) -> Fetching
        ensures { result ≡ self.now }
    {
        Fetching {
            inner: collect_again(&self.inner),
        }
    }

    /// The read of the next piece.
    pub(crate) fn op(&self) -> Op
        ensures { result ≡ Read (place self.now.from) (room self.now.from) }
    {
        self.inner.op()
    }

    /// Holds that piece too.
    pub(crate) fn give(self, reply: &Reply) -> Collect
        requires { fits (Read (place self.from) (room self.from)) reply.now ≡ true }
        ensures left { collect_left 44 result ≡ led (collect_left 44 self) reply.now }
        ensures parts { result.from ≡ past (room self.from) self.from }
        ensures most { length result.held ≤ 107 }
    {
        let mut from = self.inner;
        let piece = from.from.give(reply);
        from.held.append(&piece);
        from
    }
}
