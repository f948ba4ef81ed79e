// A request as a call of the API.
use crate::escapes::bytes_of;
use crate::words::{add_limits, add_number, add_word};
use api_calls::{
    ApiCall, Balloon, CacheType, Drive, DrivePatch, Interface, InterfacePatch, MmdsConfig, Part,
    VmState, Vsock,
};
use api_json::{ReadError, read};
use http_stream::Asked;
use metadata_store::MetadataVersion;
use std::alloc::{AllocError, Global};
use vm_types::TextList;

/// Puts the name of the call of a method, a path and a body at the end, for a drive, an interface, a vsock device, a balloon and a
/// PUT of /mmds/config with its fields, or the number of its refusal.
pub fn add(alloc: Global, case: &str, text: &mut String) -> Result<(), AllocError> {
    let (method, rest) = case.split_once(' ').unwrap_or((case, ""));
    let (path, body) = rest.split_once(' ').unwrap_or((rest, ""));
    let body = joined(alloc, body)?;
    let request = Asked {
        method,
        path,
        front: &[],
        headers: &[],
        body: body.as_slice(),
    };
    add_read(alloc, &request, text)
}

fn joined(alloc: Global, pieces: &str) -> Result<Vec<u8>, AllocError> {
    let mut bytes = Vec::new(alloc);
    for piece in pieces.split('|') {
        bytes.extend_from_slice(&bytes_of(alloc, piece)?)?;
    }
    Ok(bytes)
}

fn add_read(alloc: Global, request: &Asked<'_>, text: &mut String) -> Result<(), AllocError> {
    match read(alloc, request) {
        Ok(call) => add_call(&call, text),
        Err(ReadError::Refused(why)) => write!(text, "{}", why.number()),
        Err(ReadError::OutOfMemory) => Err(AllocError),
    }
}

fn add_call(call: &ApiCall, text: &mut String) -> Result<(), AllocError> {
    text.push_str(name(call))?;
    match call {
        ApiCall::PutDrive(drive) => add_put(drive, text),
        ApiCall::PatchDrive(patch) => add_patch(patch, text),
        ApiCall::PutInterface(interface) => add_interface(interface, text),
        ApiCall::PatchInterface(patch) => add_interface_patch(patch, text),
        ApiCall::PutVsock(vsock) => add_vsock(vsock, text),
        ApiCall::PutBalloon(balloon) => add_balloon(balloon, text),
        ApiCall::PatchBalloon(patch) => add_number(patch.amount_mib, text),
        ApiCall::PatchStatistics(patch) => add_number(patch.stats_polling_interval_s, text),
        ApiCall::PutEntropy(entropy) => add_limits("limits", &entropy.rate_limiter, text),
        ApiCall::PutMmdsConfig(mmds) => add_mmds(mmds, text),
        _ => Ok(()),
    }
}

fn add_put(drive: &Drive, text: &mut String) -> Result<(), AllocError> {
    add_word(drive.drive_id.as_str(), text)?;
    add_word(drive.path_on_host.as_str(), text)?;
    add_word(root_word(drive), text)?;
    add_word(access_word(drive), text)?;
    add_word(cache_word(drive), text)?;
    add_limits("limits", &drive.rate_limiter, text)
}

fn root_word(drive: &Drive) -> &'static str {
    if drive.is_root_device {
        "root"
    } else {
        "other"
    }
}

fn access_word(drive: &Drive) -> &'static str {
    if drive.is_read_only {
        "read-only"
    } else {
        "read-write"
    }
}

fn cache_word(drive: &Drive) -> &'static str {
    match drive.cache_type {
        CacheType::Unsafe => "unsafe",
        CacheType::Writeback => "writeback",
    }
}

fn add_patch(patch: &DrivePatch, text: &mut String) -> Result<(), AllocError> {
    add_word(patch.drive_id.as_str(), text)?;
    add_some(&patch.path_on_host, text)?;
    add_limits("limits", &patch.rate_limiter, text)
}

fn add_some(word: &Option<TextList>, text: &mut String) -> Result<(), AllocError> {
    match word {
        Some(word) => add_word(word.as_str(), text),
        None => Ok(()),
    }
}

fn add_interface(interface: &Interface, text: &mut String) -> Result<(), AllocError> {
    add_word(interface.iface_id.as_str(), text)?;
    add_word(interface.host_dev_name.as_str(), text)?;
    add_some(&interface.guest_mac, text)?;
    add_limits("rx", &interface.rx_rate_limiter, text)?;
    add_limits("tx", &interface.tx_rate_limiter, text)
}

fn add_interface_patch(patch: &InterfacePatch, text: &mut String) -> Result<(), AllocError> {
    add_word(patch.iface_id.as_str(), text)?;
    add_limits("rx", &patch.rx_rate_limiter, text)?;
    add_limits("tx", &patch.tx_rate_limiter, text)
}

fn add_vsock(vsock: &Vsock, text: &mut String) -> Result<(), AllocError> {
    add_number(vsock.guest_cid, text)?;
    add_word(vsock.uds_path.as_str(), text)
}

fn add_balloon(balloon: &Balloon, text: &mut String) -> Result<(), AllocError> {
    add_number(balloon.amount_mib, text)?;
    add_word(deflating_word(balloon), text)?;
    add_number(balloon.stats_polling_interval_s, text)
}

fn deflating_word(balloon: &Balloon) -> &'static str {
    if balloon.deflate_on_oom {
        "deflates"
    } else {
        "stays"
    }
}

fn add_mmds(mmds: &MmdsConfig, text: &mut String) -> Result<(), AllocError> {
    for id in mmds.network_interfaces.as_slice() {
        add_word(id.as_str(), text)?;
    }
    add_word(version_word(mmds), text)?;
    add_word(mmds.ipv4_address.as_str(), text)
}

fn version_word(mmds: &MmdsConfig) -> &'static str {
    match mmds.version {
        MetadataVersion::V1 => "v1",
        MetadataVersion::V2 => "v2",
    }
}

fn name(call: &ApiCall) -> &'static str {
    match call {
        ApiCall::PutBootSource(_) => "boot",
        ApiCall::PutDrive(_) => "drive-put",
        ApiCall::PatchDrive(_) => "drive-patch",
        ApiCall::PutInterface(_) => "interface-put",
        ApiCall::PatchInterface(_) => "interface-patch",
        ApiCall::PutVsock(_) => "vsock-put",
        ApiCall::PutMachineConfig(_) => "machine-put",
        ApiCall::PatchMachineConfig(_) => "machine-patch",
        ApiCall::PutBalloon(_) => "balloon-put",
        ApiCall::PatchBalloon(_) => "balloon-patch",
        ApiCall::PatchStatistics(_) => "statistics-patch",
        ApiCall::PutEntropy(_) => "entropy-put",
        ApiCall::PutMmdsConfig(_) => "mmds-put",
        ApiCall::PutMetadata(_) => "metadata-put",
        ApiCall::PatchMetadata(_) => "metadata-patch",
        ApiCall::InstanceStart => "start",
        ApiCall::PatchVm(VmState::Paused) => "pause",
        ApiCall::PatchVm(VmState::Resumed) => "resume",
        ApiCall::CreateSnapshot(_) => "create",
        ApiCall::LoadSnapshot(_) => "load",
        ApiCall::Get(Part::Instance) => "instance",
        ApiCall::Get(Part::Version) => "version",
        ApiCall::Get(Part::MachineConfig) => "machine",
        ApiCall::Get(Part::Metadata) => "metadata",
        ApiCall::Get(Part::VmConfig) => "config",
        ApiCall::Get(Part::Balloon) => "balloon",
        ApiCall::Get(Part::Statistics) => "statistics",
    }
}
