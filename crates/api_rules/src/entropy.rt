// PUT /entropy
ghost use Rattle.std.specs.Prelude.{◌≡◌};
ghost use Rattle.api_rules.specs.Table as table;

use crate::room::has_no_room;
use refusals::Refusal;
use vm_config::Config;

/// What a PUT of the entropy device is refused by the configuration.
pub fn put_refusal(config: &Config) -> Option<Refusal>
    ensures { result ≡ table.first_refusal (table.entropy_rows config.now) }
{
    if config.entropy.is_none() && has_no_room(config) {
        Some(Refusal::TooManyDevices)
    } else {
        None
    }
}
