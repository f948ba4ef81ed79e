// How many devices there may be.
ghost use Rattle.std.specs.Prelude.{◌≡◌};
ghost use Rattle.api_rules.specs.Table as table;

use port_table::MOST_DEVICES;
use vm_config::Config;

/// Whether there is no room for one device more.
pub fn has_no_room(config: &Config) -> bool
    ensures { result ≡ table.has_no_room config.now }
{
    config.device_count() >= MOST_DEVICES as u128
}
