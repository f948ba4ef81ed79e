// PUT /snapshot/create and PUT /snapshot/load
ghost use Rattle.std.specs.Prelude.{◌≡◌};
ghost use Rattle.api_rules.specs.Table as table;

use crate::ids::Ids;
use api_calls::SnapshotType;
use refusals::Refusal;
use vm_config::{Config, Phase};

// Numbers of snapshots are below this.
const END_OF_NUMBERS: u64 = 1 << 63;

/// What a snapshot of this type is refused.
pub fn create_refusal(
    phase: Phase,
    config: &Config,
    ids: &Ids,
    snapshot_type: SnapshotType,
) -> Option<Refusal>
    ensures { result ≡ table.first_refusal (table.create_rows phase config.now ids.now snapshot_type) }
{
    let is_diff = snapshot_type == SnapshotType::Diff;
    if !matches!(phase, Phase::Paused) {
        Some(Refusal::NotPaused)
    } else if is_diff && !config.machine.track_dirty_pages {
        Some(Refusal::NotTracked)
    } else if is_diff && ids.base.is_none() {
        Some(Refusal::NoBase)
    } else if ids.next >= END_OF_NUMBERS {
        Some(Refusal::NoSlotLeft)
    } else {
        None
    }
}

/// What a load is refused by the configuration.
pub fn load_refusal(config: &Config) -> Option<Refusal>
    ensures { result ≡ table.first_refusal (table.load_rows config.now) }
{
    if config.configured {
        Some(Refusal::AlreadyConfigured)
    } else {
        None
    }
}
