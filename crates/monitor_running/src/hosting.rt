// What actors ask of the host, in two parts, so that a slice is lent both at once.
ghost use Rattle.std.specs.Prelude.{◌≡◌, true, IsSome};
ghost use Rattle.vm_types.specs.declared.op.Op.TheVariants.{Out};
ghost use Rattle.monitor_machine.specs.Kinds.{disks, links, vsocks, words};
ghost use Rattle.monitor_running.specs.Devices.{CanBeAsked, IsGiven};
ghost use Rattle.monitor_running.specs.Asked.{devices_known};

use crate::asking::{ask_disk, ask_link, ask_vsock, ask_words, can_be_asked};
use slice_runner::DeviceObjects;
use vm_host::{Disk, GuestWords, Link, VsockHost};
use vm_types::{OutOp, Reply};

/// What devices ask: the disks of all block devices, the links of all network devices, the host's end of the vsock device, and the
/// words of all entropy devices.
#[derive(Drop)]
pub struct DeviceHost<D, L, V, G> {
    pub disk: D,
    pub link: L,
    pub vsock: V,
    pub guest_words: G,
}

/// That, and the clock.
#[derive(Drop)]
pub struct TurnHost<D, L, V, G, C> {
    pub devices: DeviceHost<D, L, V, G>,
    pub clock: C,
}

impl<D: Disk, L: Link, V: VsockHost, G: GuestWords> DeviceHost<D, L, V, G> {
    fn ask_their_disk(&mut self, device: u8, act: &OutOp) -> Option<Reply>
        ensures given { IsGiven device (Out act.now)
            (devices_known D.known L.known V.known G.known self.old) result
            (devices_known D.known L.known V.known G.known self.new) }
        ensures asked { CanBeAsked (Out act.now) → disks.is_call act.now ≡ true → IsSome result }
    {
        ask_disk(&mut self.disk, device, act)
    }

    fn ask_their_link(&mut self, device: u8, act: &OutOp) -> Option<Reply>
        ensures given { IsGiven device (Out act.now)
            (devices_known D.known L.known V.known G.known self.old) result
            (devices_known D.known L.known V.known G.known self.new) }
        ensures asked { links.is_call act.now ≡ true → IsSome result }
    {
        ask_link(&mut self.link, device, act)
    }

    fn ask_their_vsock(&mut self, device: u8, act: &OutOp) -> Option<Reply>
        ensures given { IsGiven device (Out act.now)
            (devices_known D.known L.known V.known G.known self.old) result
            (devices_known D.known L.known V.known G.known self.new) }
        ensures asked { vsocks.is_call act.now ≡ true → IsSome result }
    {
        ask_vsock(&mut self.vsock, device, act)
    }

    fn ask_their_words(&mut self, device: u8, act: &OutOp) -> Option<Reply>
        ensures given { IsGiven device (Out act.now)
            (devices_known D.known L.known V.known G.known self.old) result
            (devices_known D.known L.known V.known G.known self.new) }
        ensures asked { words.is_call act.now ≡ true → IsSome result }
    {
        ask_words(&mut self.guest_words, device, act)
    }

    /// What its host object answers a device that asks this: the object of the kind whose call it is. `None` where it asks none, or as
    /// no device asks one.
    pub fn ask(&mut self, device: u8, act: &OutOp) -> Option<Reply>
        ensures given { IsGiven device (Out act.now)
            (devices_known D.known L.known V.known G.known self.old) result
            (devices_known D.known L.known V.known G.known self.new) }
        ensures asked { CanBeAsked (Out act.now) → IsSome result }
    {
        match act {
            OutOp::Clock => None,
            OutOp::DiskRead { .. } | OutOp::DiskWrite { .. } | OutOp::DiskFlush => {
                self.ask_their_disk(device, act)
            }
            OutOp::LinkTake | OutOp::LinkPart { .. } | OutOp::LinkSend { .. } | OutOp::LinkEnd => {
                self.ask_their_link(device, act)
            }
            OutOp::HostNext
            | OutOp::HostDial { .. }
            | OutOp::HostSend { .. }
            | OutOp::HostClose { .. } => self.ask_their_vsock(device, act),
            OutOp::DrawWord => self.ask_their_words(device, act),
        }
    }
}

impl<D: Disk, L: Link, V: VsockHost, G: GuestWords> DeviceObjects for DeviceHost<D, L, V, G> {
    ghost use Rattle.monitor_machine.specs.Kinds.{DevicesKnown};
    ghost use Rattle.monitor_running.specs.Asked.{devices_known};
    ghost use Rattle.monitor_running.specs.Devices.{AnswersDevice, can_be_asked};

    ghost Known = { DevicesKnown };

    ghost known = { devices_known D.known L.known V.known G.known };

    ghost calls = { can_be_asked };

    ghost Answers = { AnswersDevice };

    fn is_call(&self, act: &OutOp) -> bool {
        can_be_asked(act)
    }

    fn answer(&mut self, device: u8, act: &OutOp) -> Reply {
        let Some(reply) = self.ask(device, act) else {
            unreachable!()
        };
        reply
    }
}
