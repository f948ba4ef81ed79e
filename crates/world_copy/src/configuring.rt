// What was configured, as a copy has it, and back.
ghost use Rattle.std.specs.Prelude.{◌≡◌, IfOk};
ghost use Rattle.std.specs.Option.{option_map};
ghost use Rattle.flat_snapshot.specs.Carried.{carried_config};
ghost use Rattle.flat_snapshot.specs.Copies.{source_of};

use api_calls::{BootSource, Entropy, MachineConfig, MmdsConfig, Vsock};
use snap_state::{Configuration, Filed, SavedList, taken};
use std::alloc::{AllocError, Global};
use vm_config::{Config, Drives, Interfaces, Named, NamedList};
use vm_types::TextList;

fn path_of(alloc: Global, path: &Option<TextList>) -> Result<Option<TextList>, AllocError>
    ensures { IfOk result (λ copy. copy ≡ path.now) }
{
    match path {
        None => Ok(None),
        Some(path) => Ok(Some(TextList::copy_of(alloc, path.as_str())?)),
    }
}

// What was booted. A machine that has started has a boot source.
fn source_of(
    alloc: Global,
    source: &Option<BootSource>,
) -> Result<snap_state::BootSource, AllocError>
    ensures { IfOk result (λ copy. copy ≡ source_of source.now) }
{
    match source {
        None => Ok(snap_state::BootSource {
            kernel_image_path: TextList::copy_of(alloc, "")?,
            initrd_path: None,
            boot_args: TextList::copy_of(alloc, "")?,
        }),
        Some(source) => {
            let kernel_image_path = TextList::copy_of(alloc, source.kernel_image_path.as_str())?;
            let initrd_path = path_of(alloc, &source.initrd_path)?;
            let boot_args = TextList::copy_of(alloc, source.boot_args.as_str())?;
            Ok(snap_state::BootSource {
                kernel_image_path,
                initrd_path,
                boot_args,
            })
        }
    }
}

// What is configured by ids.
fn list_of<T: Named>(alloc: Global, list: &NamedList<T>) -> Result<SavedList<T>, AllocError>
    ensures { IfOk result (λ copy. copy ≡ list.now) }
{
    let list = NamedList::copy_of(alloc, list.as_slice())?;
    Ok(SavedList {
        items: list.into_vec(),
    })
}

// The vsock device, if there is one.
fn vsock_of(alloc: Global, vsock: &Option<Vsock>) -> Result<Option<Filed<Vsock>>, AllocError>
    ensures { IfOk result (λ copy. copy ≡ vsock.now) }
{
    match vsock {
        None => Ok(None),
        Some(vsock) => Ok(Some(Filed {
            value: Vsock {
                guest_cid: vsock.guest_cid,
                uds_path: TextList::copy_of(alloc, vsock.uds_path.as_str())?,
            },
        })),
    }
}

// How the guest is given metadata.
fn mmds_of(
    alloc: Global,
    mmds: &Option<MmdsConfig>,
) -> Result<Option<Filed<MmdsConfig>>, AllocError>
    ensures { IfOk result (λ copy. copy ≡ mmds.now) }
{
    match mmds {
        None => Ok(None),
        Some(mmds) => Ok(Some(Filed {
            value: mmds.copy(alloc)?,
        })),
    }
}

/// The configuration as a copy has it.
pub(crate) fn configuration_of(alloc: Global, config: &Config) -> Result<Configuration, AllocError>
    ensures { IfOk result (λ copy.
        copy ≡ record {
          boot_source = source_of config.now.boot_source;
          drives = config.now.drives;
          interfaces = config.now.interfaces;
          vsock = config.now.vsock;
          machine = config.now.machine;
          balloon = config.now.balloon;
          mmds = config.now.mmds;
        }) }
{
    let boot_source = source_of(alloc, &config.boot_source)?;
    let drives = list_of(alloc, &config.drives)?;
    let interfaces = list_of(alloc, &config.interfaces)?;
    let vsock = vsock_of(alloc, &config.vsock)?;
    let mmds = mmds_of(alloc, &config.mmds)?;
    Ok(Configuration {
        boot_source,
        drives,
        interfaces,
        vsock,
        machine: config.machine,
        balloon: config.balloon,
        mmds,
    })
}

/// The configuration of a machine that goes on from a copy with this one and this entropy device, and tracks dirty pages or doesn't.
pub fn config_of(
    configuration: Configuration,
    entropy: Option<Entropy>,
    track_dirty_pages: bool,
) -> Config
    ensures { result ≡ carried_config track_dirty_pages configuration entropy }
{
    Config {
        boot_source: Some(BootSource {
            kernel_image_path: configuration.boot_source.kernel_image_path,
            initrd_path: configuration.boot_source.initrd_path,
            boot_args: configuration.boot_source.boot_args,
        }),
        drives: Drives::from_vec(configuration.drives.items),
        interfaces: Interfaces::from_vec(configuration.interfaces.items),
        vsock: taken(configuration.vsock),
        machine: MachineConfig {
            vcpu_count: configuration.machine.vcpu_count,
            mem_size_mib: configuration.machine.mem_size_mib,
            track_dirty_pages,
        },
        balloon: configuration.balloon,
        entropy,
        mmds: taken(configuration.mmds),
        configured: true,
    }
}
