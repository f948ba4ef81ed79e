// PUT /mmds/config
ghost use Rattle.std.specs.Prelude.{◌≡◌};
ghost use Rattle.std.specs.List.{list_all};
ghost use Rattle.vm_config.specs.Interfaces.{has_interface};
ghost use Rattle.api_rules.specs.Table as table;

use api_calls::MmdsConfig;
use refusals::Refusal;
use vm_config::Config;
use vm_types::TextList;

fn are_there(config: &Config, ids: &[TextList]) -> bool
    ensures { result ≡ list_all (has_interface config.now.interfaces) ids.now }
{
    ids.iter().all(|id| config.interfaces.has(id.as_str()))
}

/// What a PUT is refused by the configuration: no interface has one of its ids.
pub fn put_refusal(config: &Config, mmds: &MmdsConfig) -> Option<Refusal>
    ensures { result ≡ table.first_refusal (table.mmds_rows config.now mmds.now) }
{
    if are_there(config, mmds.network_interfaces.as_slice()) {
        None
    } else {
        Some(Refusal::NoSuchId)
    }
}
