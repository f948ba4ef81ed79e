// PUT and PATCH /machine-config
ghost use Rattle.std.specs.Prelude.{◌≡◌};
ghost use Rattle.vm_config.specs.Changes.{with_fields};
ghost use Rattle.api_rules.specs.Table as table;

use crate::balloon::{amount_of, is_beyond};
use api_calls::MachinePatch;
use refusals::Refusal;
use vm_config::{Config, with_fields};

/// What so much memory is refused by the configuration: it is less than the balloon is to take.
pub fn memory_refusal(config: &Config, mem_size_mib: u64) -> Option<Refusal>
    ensures { result ≡ table.first_refusal (table.memory_rows config.now mem_size_mib) }
{
    if is_beyond(mem_size_mib, amount_of(&config.balloon)) {
        Some(Refusal::OutOfRange)
    } else {
        None
    }
}

/// What a PATCH is refused by the configuration.
pub fn patch_refusal(config: &Config, patch: &MachinePatch) -> Option<Refusal>
    ensures { result ≡ table.first_refusal
        (table.memory_rows config.now (with_fields patch.now config.now.machine).mem_size_mib) }
{
    memory_refusal(config, with_fields(patch, &config.machine).mem_size_mib)
}
