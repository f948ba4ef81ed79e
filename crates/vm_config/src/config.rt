// What is configured.
ghost use Rattle.std.specs.Prelude.{◌≡◌, true, false, IfOk, OnOk, OnErr};
ghost use Rattle.vm_config.specs.Changes.{default_config};
ghost use Rattle.vm_config.specs.Drives.{patch_drive, put_drive};
ghost use Rattle.vm_config.specs.Interfaces.{patch_interface, put_interface};

use crate::drives::Drives;
use crate::interfaces::Interfaces;
use api_calls::{
    Balloon, BootSource, Drive, DrivePatch, Entropy, Interface, InterfacePatch, MachineConfig,
    MmdsConfig, Vsock,
};
use std::alloc::{AllocError, Global};

const DEFAULT_HARTS: u64 = 1;

const DEFAULT_MIB: u64 = 128;

/// Where a machine is in its life.
#[derive(Clone, Copy, Drop)]
pub enum Phase {
    NotStarted,
    Running,
    Paused,
}

/// What is configured.
#[derive(Drop)]
pub struct Config {
    pub boot_source: Option<BootSource>,
    pub drives: Drives,
    pub interfaces: Interfaces,
    pub vsock: Option<Vsock>,
    pub machine: MachineConfig,
    pub balloon: Option<Balloon>,
    pub entropy: Option<Entropy>,
    /// How the guest is given metadata.
    pub mmds: Option<MmdsConfig>,
    /// Whether any call that is allowed only before boot was accepted.
    pub configured: bool,
}

impl Config {
    /// What a machine has before the first call: no boot source, no device, one hart and 128 MiB.
    pub fn new(alloc: Global) -> Config
        ensures { result ≡ default_config }
    {
        Config {
            boot_source: None,
            drives: Drives::new(alloc),
            interfaces: Interfaces::new(alloc),
            vsock: None,
            machine: MachineConfig {
                vcpu_count: DEFAULT_HARTS,
                mem_size_mib: DEFAULT_MIB,
                track_dirty_pages: false,
            },
            balloon: None,
            entropy: None,
            mmds: None,
            configured: false,
        }
    }

    /// Puts a drive among the drives. An `Err` changes nothing.
    pub fn put_drive(&mut self, drive: Drive) -> Result<(), AllocError>
        ensures ok { OnOk result (self.new
            ≡ record self.old { drives = put_drive self.old.drives drive; configured = true }) }
        ensures err { OnErr result (self.new ≡ self.old) }
    {
        self.drives.put(drive)?;
        self.configured = true;
        Ok(())
    }

    /// Replaces what a PATCH gives of a drive.
    pub fn patch_drive(&mut self, patch: DrivePatch)
        ensures { self.new ≡ record self.old { drives = patch_drive self.old.drives patch } }
    {
        self.drives.patch(patch);
    }

    /// Puts an interface among the interfaces. An `Err` changes nothing.
    pub fn put_interface(&mut self, interface: Interface) -> Result<(), AllocError>
        ensures ok { OnOk result (self.new
            ≡ record self.old { interfaces = put_interface self.old.interfaces interface; configured = true }) }
        ensures err { OnErr result (self.new ≡ self.old) }
    {
        self.interfaces.put(interface)?;
        self.configured = true;
        Ok(())
    }

    /// Replaces what a PATCH gives of an interface.
    pub fn patch_interface(&mut self, patch: InterfacePatch)
        ensures { self.new ≡ record self.old { interfaces = patch_interface self.old.interfaces patch } }
    {
        self.interfaces.patch(patch);
    }

    /// The drives with one that is put among them, for `set_drives`: all the memory that a PUT of a drive takes.
    pub fn with_drive(&self, alloc: Global, drive: Drive) -> Result<Drives, AllocError>
        ensures { IfOk result (λ drives. drives ≡ put_drive self.now.drives drive) }
    {
        let mut drives = Drives::copy_of(alloc, self.drives.as_slice())?;
        drives.put(drive)?;
        Ok(drives)
    }

    /// Takes the drives that a PUT of one leaves.
    pub fn set_drives(&mut self, drives: Drives)
        ensures { self.new ≡ record self.old { drives = drives; configured = true } }
    {
        self.drives = drives;
        self.configured = true;
    }

    /// The interfaces with one that is put among them, for `set_interfaces`: all the memory that a PUT of an interface takes.
    pub fn with_interface(
        &self,
        alloc: Global,
        interface: Interface,
    ) -> Result<Interfaces, AllocError>
        ensures { IfOk result (λ interfaces. interfaces ≡ put_interface self.now.interfaces interface) }
    {
        let mut interfaces = Interfaces::copy_of(alloc, self.interfaces.as_slice())?;
        interfaces.put(interface)?;
        Ok(interfaces)
    }

    /// Takes the interfaces that a PUT of one leaves.
    pub fn set_interfaces(&mut self, interfaces: Interfaces)
        ensures { self.new ≡ record self.old { interfaces = interfaces; configured = true } }
    {
        self.interfaces = interfaces;
        self.configured = true;
    }
}
