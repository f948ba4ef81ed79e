// PUT /vsock
ghost use Rattle.std.specs.Prelude.{◌≡◌};
ghost use Rattle.api_rules.specs.Table as table;

use crate::room::has_no_room;
use refusals::Refusal;
use vm_config::Config;

/// What a PUT of the vsock device is refused by the configuration.
pub fn put_refusal(config: &Config) -> Option<Refusal>
    ensures { result ≡ table.first_refusal (table.vsock_rows config.now) }
{
    if config.vsock.is_none() && has_no_room(config) {
        Some(Refusal::TooManyDevices)
    } else {
        None
    }
}
