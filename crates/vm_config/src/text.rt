// The texts that GET tells.
ghost use Rattle.std.specs.Prelude.{◌≡◌, IfOk};
ghost use Rattle.serde_json.specs.View.{view};
ghost use Rattle.vm_config.specs.Texts as texts;

use crate::config::{Config, Phase};
use crate::statistics::{Statistics, statistics_value};
use crate::values::{balloon, boot_source, drives, entropy, interfaces, machine, mmds, vsock};
use api_calls::Balloon;
use serde_json::{Value, json};
use std::alloc::{AllocError, Global};

fn phase_text(phase: Phase) -> &'static str
    ensures { result.now ≡ texts.phase_text phase }
{
    match phase {
        Phase::NotStarted => "Not started",
        Phase::Running => "Running",
        Phase::Paused => "Paused",
    }
}

pub fn instance(alloc: Global, id: &str, phase: Phase) -> Result<Value, AllocError>
    ensures { IfOk result (λ v. view v ≡ texts.instance id.now phase) }
{
    let state = phase_text(phase);
    json!(in alloc; {
        "app_name": "Firecracker",
        "id": id,
        "state": state,
        "vmm_version": "1.0-rv64",
    })
}

pub fn version(alloc: Global) -> Result<Value, AllocError>
    ensures { IfOk result (λ v. view v ≡ texts.version) }
{
    json!(in alloc; {"firecracker_version": "1.0-rv64"})
}

pub fn told_statistics(
    alloc: Global,
    balloon: &Option<Balloon>,
    statistics: Option<Statistics>,
) -> Result<Value, AllocError>
    ensures { IfOk result (λ v. view v ≡ texts.statistics_by balloon.now statistics) }
{
    let Some(balloon) = balloon else {
        return Ok(Value::Null);
    };
    let Some(told) = statistics else {
        return Ok(Value::Null);
    };
    statistics_value(alloc, balloon.amount_mib, &told)
}

pub fn vm_config(alloc: Global, config: &Config) -> Result<Value, AllocError>
    ensures { IfOk result (λ v. view v ≡ texts.vm_config config.now) }
{
    let source = boot_source(alloc, &config.boot_source)?;
    let drives = drives(alloc, config.drives.as_slice())?;
    let interfaces = interfaces(alloc, config.interfaces.as_slice())?;
    let vsock = vsock(alloc, &config.vsock)?;
    let machine = machine(alloc, &config.machine)?;
    let balloon = balloon(alloc, &config.balloon)?;
    let entropy = entropy(alloc, &config.entropy)?;
    let mmds = mmds(alloc, &config.mmds)?;
    json!(in alloc; {
        "boot-source": source,
        "drives": drives,
        "machine-config": machine,
        "network-interfaces": interfaces,
        "vsock": vsock,
        "balloon": balloon,
        "entropy": entropy,
        "mmds-config": mmds,
    })
}
