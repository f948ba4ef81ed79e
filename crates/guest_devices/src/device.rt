// A device of any kind as an actor.
ghost use Rattle.std.specs.Prelude.{◌≡◌, true};
ghost use Rattle.guest_devices.specs.Devices.{device_changed, left_reset, new_left};
ghost use Rattle.guest_devices.specs.Kept.{IsReset, device_left, device_pages, device_port, is_kept, is_saved, kept_of};
ghost use Rattle.guest_devices.specs.Moments.{is_timely};
ghost use Rattle.guest_devices.specs.Ports.{number_of};

use crate::balloon::{
    balloon_again, give_balloon, new_balloon, port_of_balloon, tell_balloon, want_of_balloon,
};
use crate::block::{block_again, give_block, new_block, port_of_block, tell_block, want_of_block};
use crate::change::DeviceChange;
use crate::entropy::{
    entropy_again, give_entropy, new_entropy, port_of_entropy, tell_entropy, want_of_entropy,
};
use crate::net::{give_net, net_again, new_net, port_of_net, tell_net, want_of_net};
use crate::new_device::NewDevice;
use crate::timely::are_before;
use crate::vsock::{
    give_vsock, new_vsock, port_of_vsock, reset_vsock, tell_vsock, vsock_again, want_of_vsock,
};
use balloon_device::BalloonDevice;
use block_device::Block;
use entropy_device::EntropyDevice;
use net_device::NetDevice;
use port_table::DeviceKind;
use vm_types::{Actor, Op, Reply};
use vsock_device::VsockDevice;

/// A device, by its kind.
#[derive(Drop)]
pub enum Device {
    Block(Block),
    Net(NetDevice),
    Vsock(VsockDevice),
    Balloon(BalloonDevice),
    Entropy(EntropyDevice),
}

impl Device {
    /// The device of this port that has done nothing, in a guest of so many pages.
    pub fn new(port: u8, pages: u32, what: &NewDevice) -> Device
        ensures { device_left result ≡ new_left port pages what.now }
    {
        match what {
            NewDevice::Block(drive) => Device::Block(new_block(port, pages, drive)),
            NewDevice::Net(what) => Device::Net(new_net(port, pages, what)),
            NewDevice::Vsock(what) => Device::Vsock(new_vsock(port, pages, what)),
            NewDevice::Balloon(what) => Device::Balloon(new_balloon(port, pages, what)),
            NewDevice::Entropy(what) => Device::Entropy(new_entropy(port, pages, what)),
        }
    }

    /// The number of its port.
    pub fn port(&self) -> u8
        ensures port { result ≡ device_port self.now }
        ensures kept { is_kept self.now ≡ true }
    {
        match self {
            Device::Block(block) => port_of_block(block),
            Device::Net(net) => port_of_net(net),
            Device::Vsock(vsock) => port_of_vsock(vsock),
            Device::Balloon(balloon) => port_of_balloon(balloon),
            Device::Entropy(entropy) => port_of_entropy(entropy),
        }
    }

    /// Which device its port shows (VIRTIO 1.2, 5).
    pub fn kind(&self) -> DeviceKind
        ensures { result ≡ number_of (kept_of self.now).kind }
    {
        match self {
            Device::Block(_) => DeviceKind::Block,
            Device::Net(_) => DeviceKind::Net,
            Device::Vsock(_) => DeviceKind::Vsock,
            Device::Balloon(_) => DeviceKind::Balloon,
            Device::Entropy(_) => DeviceKind::Entropy,
        }
    }

    /// How many pages of 4,096 bytes its guest has.
    pub fn pages(&self) -> u32
        ensures { result ≡ device_pages self.now }
    {
        match self {
            Device::Block(block) => block.state().rounds.pages,
            Device::Net(net) => net.state().rounds.pages,
            Device::Vsock(vsock) => vsock.state().rounds.pages,
            Device::Balloon(balloon) => balloon.state().rounds.pages,
            Device::Entropy(entropy) => entropy.state().rounds.pages,
        }
    }

    /// Whether no request of it passed later than this time.
    pub fn is_timely(&self, time: u64) -> bool
        ensures { result ≡ is_timely time self.now }
    {
        match self {
            Device::Block(block) => are_before(time, &block.state().kind.facts.limits),
            Device::Net(net) => {
                let kind = &net.state().kind;
                are_before(time, kind.rx()) && are_before(time, kind.tx())
            }
            Device::Vsock(_) => true,
            Device::Balloon(_) => true,
            Device::Entropy(entropy) => are_before(time, entropy.state().kind.limits()),
        }
    }

    /// The device that keeps the same. It takes no memory.
    pub fn again(&self) -> Device
        ensures device { result ≡ self.now }
        ensures kept { is_kept self.now ≡ true }
    {
        match self {
            Device::Block(block) => Device::Block(block_again(block)),
            Device::Net(net) => Device::Net(net_again(net)),
            Device::Vsock(vsock) => Device::Vsock(vsock_again(vsock)),
            Device::Balloon(balloon) => Device::Balloon(balloon_again(balloon)),
            Device::Entropy(entropy) => Device::Entropy(entropy_again(entropy)),
        }
    }

    /// A change of its kind. One of another kind is none, and each is to a vsock device and to an entropy device.
    pub fn change(&mut self, change: DeviceChange)
        ensures { device_left self.new ≡ device_changed change (device_left self.old) }
    {
        match self {
            Device::Block(block) => tell_block(block, change),
            Device::Net(net) => tell_net(net, change),
            Device::Vsock(vsock) => tell_vsock(vsock, change),
            Device::Balloon(balloon) => tell_balloon(balloon, change),
            Device::Entropy(entropy) => tell_entropy(entropy, change),
        }
    }

    fn reset_of_kind(&mut self)
        ensures { device_left self.new ≡ left_reset (device_left self.old) }
    {
        match self {
            Device::Block(_) => {}
            Device::Net(_) => {}
            Device::Vsock(vsock) => reset_vsock(vsock),
            Device::Balloon(_) => {}
            Device::Entropy(_) => {}
        }
    }

    /// The Reset that comes before a create, for a kind that is told of it. A file may have what is kept behind it.
    pub fn reset(&mut self)
        ensures reset { IsReset self.old self.new }
        ensures saved { is_saved self.new ≡ true }
    {
        self.port();
        self.reset_of_kind();
        self.port();
    }
}

impl Actor for Device {
    ghost use Rattle.guest_devices.specs.Devices.{DeviceLeft, device_wants, device_next, device_leaves};
    ghost use Rattle.guest_devices.specs.Kept.{device_left};

    ghost State = { DeviceLeft };

    ghost state = { device_left };

    ghost wants = { device_wants };

    ghost next = { device_next };

    ghost leaves = { device_leaves };

    fn want(&self) -> Op {
        match self {
            Device::Block(block) => want_of_block(block),
            Device::Net(net) => want_of_net(net),
            Device::Vsock(vsock) => want_of_vsock(vsock),
            Device::Balloon(balloon) => want_of_balloon(balloon),
            Device::Entropy(entropy) => want_of_entropy(entropy),
        }
    }

    fn give(&mut self, reply: Reply) {
        match self {
            Device::Block(block) => give_block(block, reply),
            Device::Net(net) => give_net(net, reply),
            Device::Vsock(vsock) => give_vsock(vsock, reply),
            Device::Balloon(balloon) => give_balloon(balloon, reply),
            Device::Entropy(entropy) => give_entropy(entropy, reply),
        }
    }
}
