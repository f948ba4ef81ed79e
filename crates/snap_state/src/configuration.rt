// The configuration of a machine that has started.
ghost use Rattle.snap_state.specs.Configured.{boot_source, configuration};

use crate::filed::{Filed, for_file, taken};
use crate::listed::{SavedDrives, SavedInterfaces};
use api_calls::{Balloon, MachineConfig, MmdsConfig, Vsock};
use file_format::{Input, ReadError, Stored, read_fixed, read_zeros, write_fixed, write_zeros};
use std::alloc::{AllocError, Global};
use vm_types::TextList;

/// What was booted.
#[derive(Drop)]
pub struct BootSource {
    pub kernel_image_path: TextList,
    pub initrd_path: Option<TextList>,
    pub boot_args: TextList,
}

/// The configuration of a machine that has started.
#[derive(Drop)]
pub struct Configuration {
    pub boot_source: BootSource,
    /// In the order in which they were first put.
    pub drives: SavedDrives,
    /// In the order in which they were first put.
    pub interfaces: SavedInterfaces,
    pub vsock: Option<Filed<Vsock>>,
    pub machine: MachineConfig,
    pub balloon: Option<Balloon>,
    /// How the guest is given metadata.
    pub mmds: Option<Filed<MmdsConfig>>,
}

#[tactic(auto, unfolding(crate::specs::Configured::boot_source))]
impl Stored for BootSource {
    ghost format = { boot_source };

    fn write(&self, out: &mut Vec<u8>) -> Result<(), AllocError> {
        self.kernel_image_path.write(out)?;
        self.initrd_path.write(out)?;
        self.boot_args.write(out)?;
        Ok(())
    }

    fn read(alloc: Global, input: &mut Input) -> Result<BootSource, ReadError> {
        let (kernel_image_path, (initrd_path, boot_args)) = Stored::read(alloc, input)?;
        Ok(BootSource {
            kernel_image_path,
            initrd_path,
            boot_args,
        })
    }
}

#[tactic(auto, unfolding(crate::specs::Configured::configuration))]
impl Stored for Configuration {
    ghost format = { configuration };

    fn write(&self, out: &mut Vec<u8>) -> Result<(), AllocError> {
        write_fixed(&[1], out)?;
        self.boot_source.write(out)?;
        self.drives.write(out)?;
        self.interfaces.write(out)?;
        self.vsock.write(out)?;
        self.machine.vcpu_count.write(out)?;
        self.machine.mem_size_mib.write(out)?;
        write_zeros(1, out)?;
        self.machine.track_dirty_pages.write(out)?;
        for_file(self.balloon).write(out)?;
        self.mmds.write(out)?;
        Ok(())
    }

    fn read(alloc: Global, input: &mut Input) -> Result<Configuration, ReadError> {
        read_fixed(&[1], input)?;
        let (boot_source, (drives, (interfaces, vsock))): (
            BootSource,
            (SavedDrives, (SavedInterfaces, Option<Filed<Vsock>>)),
        ) = Stored::read(alloc, input)?;
        let (vcpu_count, mem_size_mib) = Stored::read(alloc, input)?;
        read_zeros(1, input)?;
        let (track_dirty_pages, (balloon, mmds)): (
            bool,
            (Option<Filed<Balloon>>, Option<Filed<MmdsConfig>>),
        ) = Stored::read(alloc, input)?;
        Ok(Configuration {
            boot_source,
            drives,
            interfaces,
            vsock,
            machine: MachineConfig {
                vcpu_count,
                mem_size_mib,
                track_dirty_pages,
            },
            balloon: taken(balloon),
            mmds,
        })
    }
}
