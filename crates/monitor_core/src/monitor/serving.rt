// What serving asks of a monitor besides the items of a script.
ghost use Rattle.std.specs.Prelude.{◌≡◌, IfOk, OnErr};
ghost use Rattle.std.specs.Borrow.{sem};
ghost use Rattle.vm_outside.specs.Known.{FilesKnown, Lasts};
ghost use Rattle.http_stream.specs.Conversation.{new_connection};
ghost use Rattle.flat_machine.specs.Machine.{Machine};
ghost use Rattle.monitor_machine.specs.Kinds.{disks, links, vsocks};
ghost use Rattle.monitor_machine.specs.Objects.{AreNamed, Uncalled};

use crate::monitor::Monitor;
use monitor_machine::LiveMachine;
use responses::ResponseForm;
use std::alloc::AllocError;
use vm_host::{Disk, Link, VsockHost};
use vm_outside::Files;
use vm_types::ByteList;

impl Monitor {
    ghost use Rattle.monitor_core.specs.Hearing.{HearGoes};
    ghost use Rattle.monitor_core.specs.Lending.{LendsMachine};
    ghost use Rattle.monitor_core.specs.State.{IsMonitor};
    ghost use Rattle.monitor_core.specs.Talking.{HasHalted};

    /// Bytes come on the connection, over these files: the bytes of the replies to everything that the connection gives
    /// with them, in order. What comes to a failed call on the files, or has no memory, is answered so. After an `Err`
    /// there was no memory, not even for a reply that says so: none of the bytes was taken, or all were; then the machine
    /// is as what was answered before left it, the replies to that are lost, and what is still due stays on the connection.
    pub fn hear<F: Files>(&mut self, bytes: &[u8], files: &mut F) -> Result<ByteList, AllocError>
        ensures goes { IfOk result (λ text.
            HearGoes bytes.now text self.old self.new (F.known files.old) (F.known files.new)) }
        ensures stops { OnErr result (HasHalted ResponseForm.Http bytes.now self.old self.new
            (F.known files.old) (F.known files.new)) }
        ensures lasts { Lasts (F.known files.old).health (F.known files.new).health }
    {
        let text = self.take_bytes(ResponseForm::Http, bytes, files)?;
        Ok(text)
    }

    /// Another connection begins, of which no byte has come.
    pub fn connect(&mut self)
        ensures front { self.new ≡ record self.old { front = new_connection } }
        ensures goes { (known : FilesKnown) (m : Machine) → IsMonitor self.old known m →
            IsMonitor self.new known (record m { connection = new_connection }) }
    {
        self.front.restart();
    }

    /// Takes this lineage.
    pub fn set_lineage(&mut self, lineage: u64)
        ensures front { self.new.front ≡ self.old.front }
        ensures goes { (known : FilesKnown) (m : Machine) → IsMonitor self.old known m →
            IsMonitor self.new known (record m { ids = record m.ids { lineage = lineage } }) }
    {
        self.machine.set_lineage(lineage);
    }

    /// Whether the connection has failed, and answers nothing more.
    pub fn is_failed(&self) -> bool
        ensures front { result ≡ self.now.front.failed }
        ensures machine { (known : FilesKnown) (m : Machine) → IsMonitor self.now known m →
            result ≡ m.connection.failed }
    {
        self.front.is_failed()
    }

    /// The machine, so that slices of it can run. The connection stays as it is.
    pub fn machine(&mut self) -> &mut LiveMachine
        ensures* lends { sem 𝓛 (LendsMachine self.entry result) }
        ensures value { result.now ≡ self.old.machine }
    {
        &mut self.machine
    }

    /// Where there is a guest, the disk of each of its devices is the file that its drive names from now on. What can't be
    /// opened fails later.
    pub fn attach_disks<D: Disk>(&self, disk: &mut D)
        ensures attached { (known : FilesKnown) (m : Machine) → IsMonitor self.now known m →
            AreNamed disks (D.known disk.old).health m (D.known disk.new) }
        ensures uncalled { Uncalled disks (D.known disk.old) (D.known disk.new) }
    {
        self.machine.attach_disks(disk);
    }

    /// The same of the links of its interfaces.
    pub fn attach_links<L: Link>(&self, link: &mut L)
        ensures attached { (known : FilesKnown) (m : Machine) → IsMonitor self.now known m →
            AreNamed links (L.known link.old).health m (L.known link.new) }
        ensures uncalled { Uncalled links (L.known link.old) (L.known link.new) }
    {
        self.machine.attach_links(link);
    }

    /// The same of the host's end of its vsock device.
    pub fn attach_vsock<V: VsockHost>(&self, vsock: &mut V)
        ensures attached { (known : FilesKnown) (m : Machine) → IsMonitor self.now known m →
            AreNamed vsocks (V.known vsock.old).health m (V.known vsock.new) }
        ensures uncalled { Uncalled vsocks (V.known vsock.old) (V.known vsock.new) }
    {
        self.machine.attach_vsock(vsock);
    }
}
