// What a PATCH makes of the machine.
ghost use Rattle.std.specs.Prelude.{◌≡◌};
ghost use Rattle.vm_config.specs.Changes as changes;

use api_calls::{MachineConfig, MachinePatch};

/// The machine with the given fields replaced.
pub fn with_fields(patch: &MachinePatch, machine: &MachineConfig) -> MachineConfig
    ensures { result ≡ changes.with_fields patch.now machine.now }
{
    MachineConfig {
        vcpu_count: patch.vcpu_count.unwrap_or(machine.vcpu_count),
        mem_size_mib: patch.mem_size_mib.unwrap_or(machine.mem_size_mib),
        track_dirty_pages: patch.track_dirty_pages.unwrap_or(machine.track_dirty_pages),
    }
}
