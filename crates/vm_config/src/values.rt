// What is configured, as GET tells it.
ghost use Rattle.std.specs.Prelude.{◌≡◌, IfOk};
ghost use Rattle.serde_json.specs.View.{view};
ghost use Rattle.vm_config.specs.Texts as texts;

use api_calls::{
    Balloon, BootSource, BucketConfig, Drive, Entropy, Interface, Limiter, MachineConfig,
    MmdsConfig, Vsock,
};
use metadata_store::MetadataVersion;
use serde_json::{Value, json};
use std::alloc::{AllocError, Global};
use vm_types::TextList;

pub fn machine(alloc: Global, machine: &MachineConfig) -> Result<Value, AllocError>
    ensures { IfOk result (λ v. view v ≡ texts.machine machine.now) }
{
    json!(in alloc; {
        "vcpu_count": machine.vcpu_count,
        "mem_size_mib": machine.mem_size_mib,
        "smt": false,
        "track_dirty_pages": machine.track_dirty_pages,
    })
}

fn text_or_null(alloc: Global, text: &Option<TextList>) -> Result<Value, AllocError>
    ensures { IfOk result (λ v. view v ≡ texts.text_or_null text.now) }
{
    match text {
        Some(text) => Ok(Value::String(String::from_str(alloc, text.as_str())?)),
        None => Ok(Value::Null),
    }
}

fn given_source(alloc: Global, source: &BootSource) -> Result<Value, AllocError>
    ensures { IfOk result (λ v. view v ≡ texts.given_source source.now) }
{
    let initrd = text_or_null(alloc, &source.initrd_path)?;
    json!(in alloc; {
        "kernel_image_path": source.kernel_image_path.as_str(),
        "initrd_path": initrd,
        "boot_args": source.boot_args.as_str(),
    })
}

pub fn boot_source(alloc: Global, source: &Option<BootSource>) -> Result<Value, AllocError>
    ensures { IfOk result (λ v. view v ≡ texts.boot_source source.now) }
{
    match source {
        Some(source) => given_source(alloc, source),
        None => Ok(Value::Null),
    }
}

fn number_or_null(number: Option<u64>) -> Value
    ensures { view result ≡ texts.number_or_null number }
{
    match number {
        Some(n) => Value::from(n),
        None => Value::Null,
    }
}

fn given_bucket(alloc: Global, bucket: &BucketConfig) -> Result<Value, AllocError>
    ensures { IfOk result (λ v. view v ≡ texts.given_bucket bucket.now) }
{
    let burst = number_or_null(bucket.one_time_burst);
    json!(in alloc; {
        "size": bucket.size,
        "refill_time": bucket.refill_time,
        "one_time_burst": burst,
    })
}

fn bucket(alloc: Global, bucket: &Option<BucketConfig>) -> Result<Value, AllocError>
    ensures { IfOk result (λ v. view v ≡ texts.bucket bucket.now) }
{
    match bucket {
        Some(bucket) => given_bucket(alloc, bucket),
        None => Ok(Value::Null),
    }
}

fn given_limiter(alloc: Global, limiter: &Limiter) -> Result<Value, AllocError>
    ensures { IfOk result (λ v. view v ≡ texts.given_limiter limiter.now) }
{
    let bandwidth = bucket(alloc, &limiter.bandwidth)?;
    let ops = bucket(alloc, &limiter.ops)?;
    json!(in alloc; {
        "bandwidth": bandwidth,
        "ops": ops,
    })
}

fn limiter(alloc: Global, limiter: &Option<Limiter>) -> Result<Value, AllocError>
    ensures { IfOk result (λ v. view v ≡ texts.limiter limiter.now) }
{
    match limiter {
        Some(limiter) => given_limiter(alloc, limiter),
        None => Ok(Value::Null),
    }
}

fn drive(alloc: Global, drive: &Drive) -> Result<Value, AllocError>
    ensures { IfOk result (λ v. view v ≡ texts.drive drive.now) }
{
    let cache = drive.cache_type.text();
    let limits = limiter(alloc, &drive.rate_limiter)?;
    json!(in alloc; {
        "drive_id": drive.drive_id.as_str(),
        "path_on_host": drive.path_on_host.as_str(),
        "is_root_device": drive.is_root_device,
        "is_read_only": drive.is_read_only,
        "cache_type": cache,
        "rate_limiter": limits,
    })
}

pub fn drives(alloc: Global, drives: &[Drive]) -> Result<Value, AllocError>
    ensures { IfOk result (λ v. view v ≡ texts.drives drives.now) }
{
    let mut told = Vec::new(alloc);
    for one in drives {
        told.push(drive(alloc, one)?)?;
    }
    Ok(Value::Array(told))
}

fn interface(alloc: Global, interface: &Interface) -> Result<Value, AllocError>
    ensures { IfOk result (λ v. view v ≡ texts.interface interface.now) }
{
    let mac = text_or_null(alloc, &interface.guest_mac)?;
    let received = limiter(alloc, &interface.rx_rate_limiter)?;
    let sent = limiter(alloc, &interface.tx_rate_limiter)?;
    json!(in alloc; {
        "iface_id": interface.iface_id.as_str(),
        "host_dev_name": interface.host_dev_name.as_str(),
        "guest_mac": mac,
        "rx_rate_limiter": received,
        "tx_rate_limiter": sent,
    })
}

pub fn interfaces(alloc: Global, interfaces: &[Interface]) -> Result<Value, AllocError>
    ensures { IfOk result (λ v. view v ≡ texts.interfaces interfaces.now) }
{
    let mut told = Vec::new(alloc);
    for one in interfaces {
        told.push(interface(alloc, one)?)?;
    }
    Ok(Value::Array(told))
}

fn given_vsock(alloc: Global, vsock: &Vsock) -> Result<Value, AllocError>
    ensures { IfOk result (λ v. view v ≡ texts.given_vsock vsock.now) }
{
    json!(in alloc; {
        "guest_cid": vsock.guest_cid,
        "uds_path": vsock.uds_path.as_str(),
    })
}

pub fn vsock(alloc: Global, vsock: &Option<Vsock>) -> Result<Value, AllocError>
    ensures { IfOk result (λ v. view v ≡ texts.vsock vsock.now) }
{
    match vsock {
        Some(vsock) => given_vsock(alloc, vsock),
        None => Ok(Value::Null),
    }
}

fn given_balloon(alloc: Global, balloon: &Balloon) -> Result<Value, AllocError>
    ensures { IfOk result (λ v. view v ≡ texts.given_balloon balloon.now) }
{
    json!(in alloc; {
        "amount_mib": balloon.amount_mib,
        "deflate_on_oom": balloon.deflate_on_oom,
        "stats_polling_interval_s": balloon.stats_polling_interval_s,
    })
}

pub fn balloon(alloc: Global, balloon: &Option<Balloon>) -> Result<Value, AllocError>
    ensures { IfOk result (λ v. view v ≡ texts.balloon balloon.now) }
{
    match balloon {
        Some(balloon) => given_balloon(alloc, balloon),
        None => Ok(Value::Null),
    }
}

fn given_entropy(alloc: Global, entropy: &Entropy) -> Result<Value, AllocError>
    ensures { IfOk result (λ v. view v ≡ texts.given_entropy entropy.now) }
{
    let rate_limiter = limiter(alloc, &entropy.rate_limiter)?;
    json!(in alloc; {
        "rate_limiter": rate_limiter,
    })
}

pub fn entropy(alloc: Global, entropy: &Option<Entropy>) -> Result<Value, AllocError>
    ensures { IfOk result (λ v. view v ≡ texts.entropy entropy.now) }
{
    match entropy {
        Some(entropy) => given_entropy(alloc, entropy),
        None => Ok(Value::Null),
    }
}

/// The version as a text.
pub fn version_text(version: MetadataVersion) -> &'static str
    ensures { result.now ≡ texts.version_text version }
{
    match version {
        MetadataVersion::V1 => "V1",
        MetadataVersion::V2 => "V2",
    }
}

fn ids(alloc: Global, ids: &[TextList]) -> Result<Value, AllocError>
    ensures { IfOk result (λ v. view v ≡ texts.ids ids.now) }
{
    let mut told = Vec::new(alloc);
    for id in ids {
        told.push(Value::String(String::from_str(alloc, id.as_str())?))?;
    }
    Ok(Value::Array(told))
}

fn given_mmds(alloc: Global, mmds: &MmdsConfig) -> Result<Value, AllocError>
    ensures { IfOk result (λ v. view v ≡ texts.given_mmds mmds.now) }
{
    let interfaces = ids(alloc, mmds.network_interfaces.as_slice())?;
    let version = version_text(mmds.version);
    json!(in alloc; {
        "network_interfaces": interfaces,
        "version": version,
        "ipv4_address": mmds.ipv4_address.as_str(),
    })
}

pub fn mmds(alloc: Global, mmds: &Option<MmdsConfig>) -> Result<Value, AllocError>
    ensures { IfOk result (λ v. view v ≡ texts.mmds mmds.now) }
{
    match mmds {
        Some(mmds) => given_mmds(alloc, mmds),
        None => Ok(Value::Null),
    }
}
