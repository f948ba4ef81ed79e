// The devices that a start makes.
ghost use Rattle.std.specs.Prelude.{All, ◌≡◌, ◌++◌, true, IfOk, OnOk, length, map};
ghost use Rattle.flat_guest.specs.Shaped.{kinds_at_start};
ghost use Rattle.flat_machine.specs.Ready.{IsTaken};
ghost use Rattle.flat_machine.specs.Entropy.{new_entropy};
ghost use Rattle.flat_machine.specs.Vsock.{new_vsock};
ghost use Rattle.flat_machine.specs.Requests.{devices_from, have_files};
ghost use Rattle.flat_snapshot.specs.Copies.{configuration_of};
ghost use Rattle.gate_file.specs.Reading.{FileCause};
ghost use Rattle.guest_devices.specs.Moments.{IsGivenNew};
ghost use Rattle.snap_state.specs.Valid.{kinds_of};
ghost use Rattle.vm_config.specs.Devices.{device_count};
ghost use Rattle.vm_outside.specs.Filing.{SameFiles};
ghost use Rattle.vm_outside.specs.Known.{Lasts, Tells};
ghost use Rattle.snap_state.specs.Valid.{is_entropy, is_interface};
ghost use Rattle.std.specs.List.{list_all};
ghost use Rattle.monitor_plans.specs.Starting.{net_start, with_balloon, with_entropy, with_others, with_vsock};

use crate::balloon::new_balloon;
use crate::drives::{DriveFiles, drive_files};
use crate::limits::gate_of;
use crate::nets::new_net;
use api_calls::{Entropy, Interface, Vsock};
use api_rules::Config;
use entropy_device::NewEntropy;
use gate_file::FileError;
use guest_devices::NewDevice;
use std::alloc::{AllocError, Global};
use vm_outside::Files;
use vsock_device::NewVsock;

// The devices of interfaces, in their order.
#[tactic(auto, using(crate::proofs::NetsMade::first_interface, crate::proofs::NetsMade::other_interfaces, crate::proofs::NetsMade::none_pushed, crate::proofs::NetsMade::one_pushed,))]
fn push_nets(devices: &mut Vec<NewDevice>, interfaces: &[Interface]) -> Result<(), AllocError>
    requires { list_all is_interface interfaces.now ≡ true }
    ensures { OnOk result (devices.new.items ≡ devices.old.items ++ map net_start interfaces.now) }
{
    match interfaces {
        [] => Ok(()),
        [first, others @ ..] => {
            devices.push(NewDevice::Net(new_net(first)))?;
            push_nets(devices, others)
        }
    }
}

// What a vsock device starts with.
fn new_vsock(vsock: &Vsock) -> NewVsock
    ensures { result ≡ new_vsock vsock.now }
{
    NewVsock {
        guest_cid: vsock.guest_cid,
    }
}

fn with_interfaces(found: DriveFiles, interfaces: &[Interface]) -> Result<DriveFiles, AllocError>
    requires { list_all is_interface interfaces.now ≡ true }
    ensures drives { IfOk result (λ it. it.drives.items ≡ found.drives.items ++ map net_start interfaces.now) }
    ensures there { IfOk result (λ it. it.are_there ≡ found.are_there) }
{
    let mut drives = found.drives;
    push_nets(&mut drives, interfaces)?;
    Ok(DriveFiles {
        drives,
        are_there: found.are_there,
    })
}

// The vsock device stands before the balloon.
fn with_vsock(found: DriveFiles, config: &Config) -> Result<DriveFiles, AllocError>
    ensures drives { IfOk result (λ it. it.drives.items ≡ with_vsock found.drives.items config.now.vsock) }
    ensures there { IfOk result (λ it. it.are_there ≡ found.are_there) }
{
    match &config.vsock {
        None => Ok(found),
        Some(vsock) => {
            let mut drives = found.drives;
            drives.push(NewDevice::Vsock(new_vsock(vsock)))?;
            Ok(DriveFiles {
                drives,
                are_there: found.are_there,
            })
        }
    }
}

// The balloon stands before the entropy device.
fn with_balloon(found: DriveFiles, config: &Config) -> Result<DriveFiles, AllocError>
    requires { IsTaken config.now }
    ensures drives { IfOk result (λ it. it.drives.items ≡ with_balloon found.drives.items config.now.balloon) }
    ensures there { IfOk result (λ it. it.are_there ≡ found.are_there) }
{
    match &config.balloon {
        None => Ok(found),
        Some(balloon) => {
            let mut drives = found.drives;
            drives.push(NewDevice::Balloon(new_balloon(balloon)))?;
            Ok(DriveFiles {
                drives,
                are_there: found.are_there,
            })
        }
    }
}

// What an entropy device starts with.
fn new_entropy(entropy: &Entropy) -> NewEntropy
    requires { is_entropy entropy.now ≡ true }
    ensures { result ≡ new_entropy entropy.now }
{
    NewEntropy {
        limits: gate_of(&entropy.rate_limiter),
    }
}

// The entropy device stands last.
#[tactic(auto, using(crate::proofs::NetsMade::entropy_taken))]
fn with_entropy(found: DriveFiles, config: &Config) -> Result<DriveFiles, AllocError>
    requires { IsTaken config.now }
    ensures drives { IfOk result (λ it. it.drives.items ≡ with_entropy found.drives.items config.now.entropy) }
    ensures there { IfOk result (λ it. it.are_there ≡ found.are_there) }
{
    match &config.entropy {
        None => Ok(found),
        Some(entropy) => {
            let mut drives = found.drives;
            drives.push(NewDevice::Entropy(new_entropy(entropy)))?;
            Ok(DriveFiles {
                drives,
                are_there: found.are_there,
            })
        }
    }
}

// The interfaces stand behind the drives, and before those.
#[tactic(auto, using(crate::proofs::NetsMade::interfaces_taken, crate::proofs::NetsMade::others_with))]
fn with_others(found: DriveFiles, config: &Config) -> Result<DriveFiles, AllocError>
    requires { IsTaken config.now }
    ensures drives { IfOk result (λ it. it.drives.items
        ≡ with_others found.drives.items config.now.interfaces config.now.vsock config.now.balloon config.now.entropy) }
    ensures there { IfOk result (λ it. it.are_there ≡ found.are_there) }
{
    let linked = with_interfaces(found, config.interfaces.as_slice())?;
    let socketed = with_vsock(linked, config)?;
    let inflated = with_balloon(socketed, config)?;
    with_entropy(inflated, config)
}

/// The devices of a machine that is configured so, the drives by their files, asked in the order of devices.
pub(crate) fn device_files<F: Files>(
    alloc: Global,
    files: &mut F,
    config: &Config,
) -> Result<DriveFiles, FileError>
    requires { IsTaken config.now }
    ensures devices { IfOk result (λ it. Tells (F.known files.old).health →
        it.drives.items ≡ devices_from config.now (F.known files.old).saved) }
    ensures there { IfOk result (λ it. Tells (F.known files.old).health →
        it.are_there ≡ have_files config.now.drives (F.known files.old).saved) }
    ensures many { IfOk result (λ it. length it.drives.items ≡ device_count config.now) }
    ensures kinds { IfOk result (λ it. kinds_at_start it.drives.items ≡ kinds_of (configuration_of config.now) config.now.entropy) }
    ensures fit { IfOk result (λ it. All IsGivenNew it.drives.items) }
    ensures same { Tells (F.known files.old).health → SameFiles (F.known files.old) (F.known files.new) }
    ensures cause { FileCause result (F.known files.old).health.faults (F.known files.new).health.faults }
    ensures lasts { Lasts (F.known files.old).health (F.known files.new).health }
{
    match drive_files(alloc, files, &config.drives) {
        Ok(found) => match with_others(found, config) {
            Ok(all) => Ok(all),
            Err(_) => Err(FileError::OutOfMemory),
        },
        Err(error) => Err(error),
    }
}
