// The objects of devices are attached as the machine's configuration names them.
ghost use Rattle.std.specs.Prelude.{◌≡◌};
ghost use Rattle.vm_outside.specs.Known.{FilesKnown};
ghost use Rattle.flat_machine.specs.Machine.{Machine};
ghost use Rattle.monitor_core.specs.State.{IsMonitor};
ghost use Rattle.monitor_machine.specs.Kinds.{disks, links, vsocks};
ghost use Rattle.monitor_machine.specs.Objects.{AreNamed, Uncalled};
ghost use Rattle.monitor_running.specs.Asked.{DevicesUncalled, HaveOwn, healths};
ghost use Rattle.monitor_running.specs.Objects.{with_devices, with_disk, with_link, with_vsock};

use monitor_core::Monitor;
use monitor_running::TurnObjects;

fn attach_disks<W: TurnObjects>(monitor: &Monitor, with: &mut W)
    ensures attached { (files : FilesKnown) (m : Machine) → IsMonitor monitor.now files m →
        AreNamed disks (W.known with.old).host.devices.disk.health m (W.known with.new).host.devices.disk }
    ensures uncalled { Uncalled disks (W.known with.old).host.devices.disk (W.known with.new).host.devices.disk }
    ensures beside { W.known with.new ≡ with_disk (W.known with.old) (W.known with.new).host.devices.disk }
{
    monitor.attach_disks(with.disk());
}

fn attach_links<W: TurnObjects>(monitor: &Monitor, with: &mut W)
    ensures attached { (files : FilesKnown) (m : Machine) → IsMonitor monitor.now files m →
        AreNamed links (W.known with.old).host.devices.link.health m (W.known with.new).host.devices.link }
    ensures uncalled { Uncalled links (W.known with.old).host.devices.link (W.known with.new).host.devices.link }
    ensures beside { W.known with.new ≡ with_link (W.known with.old) (W.known with.new).host.devices.link }
{
    monitor.attach_links(with.link());
}

fn attach_vsock<W: TurnObjects>(monitor: &Monitor, with: &mut W)
    ensures attached { (files : FilesKnown) (m : Machine) → IsMonitor monitor.now files m →
        AreNamed vsocks (W.known with.old).host.devices.vsock.health m (W.known with.new).host.devices.vsock }
    ensures uncalled { Uncalled vsocks (W.known with.old).host.devices.vsock (W.known with.new).host.devices.vsock }
    ensures beside { W.known with.new ≡ with_vsock (W.known with.old) (W.known with.new).host.devices.vsock }
{
    monitor.attach_vsock(with.vsock());
}

/// The disks are the files of the machine's drives from now on, the links those of its interfaces, and the host's end of its vsock device
/// is the one that is configured.
pub fn attach<W: TurnObjects>(monitor: &Monitor, with: &mut W)
    ensures attached { (files : FilesKnown) (m : Machine) → IsMonitor monitor.now files m →
        HaveOwn (healths (W.known with.old).host.devices) m (W.known with.new).host.devices }
    ensures uncalled { DevicesUncalled (W.known with.old).host.devices (W.known with.new).host.devices }
    ensures beside { W.known with.new ≡ with_devices (W.known with.old) (W.known with.new).host.devices }
{
    attach_disks(monitor, with);
    attach_links(monitor, with);
    attach_vsock(monitor, with);
}
