// What a start comes to.
ghost use Rattle.std.specs.Prelude.{All, ◌≡◌, ◌+◌, ◌≤◌, ◌^◌, IfOk, Option, false, is_some, length, option_map, true};
ghost use Rattle.guest_memory.specs.Boot as boot;
ghost use Rattle.guest_memory.specs.Boot.{loads_fit};
ghost use Rattle.boot_loader.specs.Loading.{have_room, loads_of};
ghost use Rattle.flat_guest.specs.Shaped.{kinds_at_start};
ghost use Rattle.flat_guest.specs.Start.{started};
ghost use Rattle.flat_snapshot.specs.Copies.{configuration_of};
ghost use Rattle.snap_state.specs.Valid.{kinds_of};
ghost use Rattle.flat_machine.specs.Ready.{IsTaken};
ghost use Rattle.guest_devices.specs.Moments.{IsGivenNew};
ghost use Rattle.api_rules.specs.Table.{changed};
ghost use Rattle.vm_config.specs.Devices.{device_count};
ghost use Rattle.api_calls.specs.declared.call.ApiCall.TheVariants as call;
ghost use Rattle.flat_machine.specs.Requests.{loads_from, initrd_place};
ghost use Rattle.vm_outside.specs.Filing.{SameFiles};
ghost use Rattle.vm_outside.specs.Known.{Lasts, Tells};
ghost use Rattle.vm_world.specs.Worlds.{IsWorld, WorldValue};
ghost use Rattle.monitor_plans.specs.Plans.{HasReadyGuest, KeepsReady, PlanCause};
ghost use Rattle.monitor_plans.specs.Starting.{StartGives};

use crate::devices::device_files;
use crate::disk::{disk_file, load_disk};
use crate::plan::Plan;
use crate::taken_config::TakenConfig;
use api_calls::MachineConfig;
use api_rules::{Config, boot_refusal};
use boot_loader::{BootError, Loads};
use devtree::{InitrdPlace, write_tree};
use gate_file::{FileError, read_front};
use guest_devices::NewDevice;
use guest_memory::initrd_start;
use refusals::Refusal;
use std::alloc::{AllocError, Global};
use vm_outside::{Failed, Files};
use vm_types::ByteList;
use vm_world::World;

/// What comes of a start that the configuration allows, by the files of its kernel image, its disk and its drives.
pub fn start<F: Files>(alloc: Global, config: &TakenConfig, files: &mut F) -> Plan
    ensures gives { Tells (F.known files.old).health → StartGives result config.now (F.known files.old).saved }
    ensures keeps { (world : Option WorldValue) → KeepsReady result config.now world }
    ensures same { Tells (F.known files.old).health → SameFiles (F.known files.old) (F.known files.new) }
    ensures cause { PlanCause result (F.known files.old).health.faults (F.known files.new).health.faults }
    ensures lasts { Lasts (F.known files.old).health (F.known files.new).health }
{
    start_by(alloc, config.get(), files)
}

fn start_by<F: Files>(alloc: Global, config: &Config, files: &mut F) -> Plan
    requires { IsTaken config.now }
    ensures gives { Tells (F.known files.old).health → StartGives result config.now (F.known files.old).saved }
    ensures keeps { (world : Option WorldValue) → KeepsReady result config.now world }
    ensures same { Tells (F.known files.old).health → SameFiles (F.known files.old) (F.known files.new) }
    ensures cause { PlanCause result (F.known files.old).health.faults (F.known files.new).health.faults }
    ensures lasts { Lasts (F.known files.old).health (F.known files.new).health }
{
    let Some(source) = &config.boot_source else {
        return Plan::Refused(Refusal::NoSuchFile);
    };
    let path = source.kernel_image_path.as_str();
    let Ok(size) = files.size(path) else {
        return Plan::FilesFailed;
    };
    let Some(len) = size else {
        return Plan::Refused(Refusal::NoSuchFile);
    };
    let Ok(file) = disk_file(files, &source.initrd_path) else {
        return Plan::FilesFailed;
    };
    let found = match device_files(alloc, files, config) {
        Ok(found) => found,
        Err(FileError::Fault) => return Plan::FilesFailed,
        Err(FileError::OutOfMemory) => return Plan::NoMemory,
    };
    if let Some(why) = boot_refusal(config, size, file, found.are_there) {
        return Plan::Refused(why);
    }
    let image = match read_front(alloc, files, path, len) {
        Ok(image) => image,
        Err(FileError::Fault) => return Plan::FilesFailed,
        Err(FileError::OutOfMemory) => return Plan::NoMemory,
    };
    match load_disk(alloc, files, &source.initrd_path, file) {
        Ok(disk) => match guest_of(alloc, config, &image, &disk, &found.drives) {
            Ok(guest) => Plan::Starts(guest),
            Err(_) => Plan::NoMemory,
        },
        Err(FileError::Fault) => Plan::FilesFailed,
        Err(FileError::OutOfMemory) => Plan::NoMemory,
    }
}

// Where the disk stands.
fn initrd_place(mem_size_mib: u64, disk: &Option<ByteList>) -> Option<InitrdPlace>
    requires { mem_size_mib ≤ 2 ^ 20 }
    ensures { result ≡ initrd_place mem_size_mib disk.now }
{
    match disk {
        Some(disk) => Some(place_by(mem_size_mib, disk.len())),
        None => None,
    }
}

fn place_by(mem_size_mib: u64, len: usize) -> InitrdPlace
    requires { mem_size_mib ≤ 2 ^ 20 }
    ensures { result ≡ record {
      start = boot.initrd_start mem_size_mib len;
      end = boot.initrd_start mem_size_mib len + len;
    } }
{
    let start = initrd_start(mem_size_mib, len as u64) as u64;
    InitrdPlace {
        start,
        end: start + len as u64,
    }
}

fn initrd_of(disk: &Option<ByteList>) -> Option<&[u8]>
    ensures { option_map (λ t. t.now) result ≡ disk.now }
{
    match disk {
        Some(disk) => Some(disk.as_slice()),
        None => None,
    }
}

// The world of this machine, with what there is room for in its memory, and these devices.
fn world_of(
    alloc: Global,
    machine: MachineConfig,
    loads: &Loads<'_>,
    devices: &[NewDevice],
) -> Result<World, AllocError>
    requires few { machine.vcpu_count ≤ 32 }
    requires small { machine.mem_size_mib ≤ 2 ^ 20 }
    requires few_devices { length devices.now ≤ 16 }
    requires room { have_room machine.mem_size_mib (loads_of loads.now) ≡ true }
    ensures { IfOk result (λ world.
        IsWorld world (started machine.vcpu_count machine.mem_size_mib (loads_of loads.now) devices.now)) }
{
    let harts = machine.vcpu_count as usize;
    match World::start(alloc, harts, machine.mem_size_mib, loads, devices) {
        Ok(world) => Ok(world),
        Err(BootError::OutOfMemory) => Err(AllocError),
        Err(BootError::NoRoom) => unreachable!(),
    }
}

// The guest of this configuration, with what is booted, of this image, disk and devices, which fit.
fn guest_of(
    alloc: Global,
    config: &Config,
    image: &[u8],
    disk: &Option<ByteList>,
    devices: &[NewDevice],
) -> Result<World, AllocError>
    requires taken { IsTaken config.now }
    requires source { is_some config.now.boot_source ≡ true }
    requires many { length devices.now ≡ device_count config.now }
    requires kinds { kinds_at_start devices.now ≡ kinds_of (configuration_of config.now) config.now.entropy }
    requires fit { All IsGivenNew devices.now }
    requires fits { loads_fit config.now.machine.mem_size_mib (length image.now) (option_map length disk.now) ≡ true }
    ensures world { IfOk result (λ guest.
        IsWorld guest (started config.now.machine.vcpu_count config.now.machine.mem_size_mib
        (loads_from config.now image.now disk.now) devices.now)) }
    ensures ready { IfOk result (λ guest. HasReadyGuest (changed config.now call.InstanceStart) false guest) }
{
    let machine = config.machine;
    let tree = write_tree(alloc, config, initrd_place(machine.mem_size_mib, disk))?;
    let loads = Loads {
        image,
        initrd: initrd_of(disk),
        tree: tree.as_slice(),
    };
    let world = world_of(alloc, machine, &loads, devices)?;
    Ok(world)
}
