// PUT and PATCH /network-interfaces/{id}
ghost use Rattle.std.specs.Prelude.{◌≡◌};
ghost use Rattle.api_rules.specs.Table as table;

use crate::room::has_no_room;
use api_calls::{Interface, InterfacePatch};
use refusals::Refusal;
use vm_config::Config;

/// What a PUT of an interface is refused by the configuration.
pub fn put_refusal(config: &Config, interface: &Interface) -> Option<Refusal>
    ensures { result ≡ table.first_refusal (table.interface_rows config.now interface.now) }
{
    if !config.interfaces.has(interface.iface_id.as_str()) && has_no_room(config) {
        Some(Refusal::TooManyDevices)
    } else {
        None
    }
}

/// What a PATCH of an interface is refused by the configuration.
pub fn patch_refusal(config: &Config, patch: &InterfacePatch) -> Option<Refusal>
    ensures { result ≡ table.first_refusal (table.interface_patch_rows config.now patch.now) }
{
    if config.interfaces.has(patch.iface_id.as_str()) {
        None
    } else {
        Some(Refusal::NoSuchId)
    }
}
