// PUT and PATCH /drives/{id}
ghost use Rattle.std.specs.Prelude.{◌≡◌};
ghost use Rattle.api_rules.specs.Table as table;

use crate::room::has_no_room;
use api_calls::{Drive, DrivePatch};
use refusals::Refusal;
use vm_config::Config;

// Whether another drive than this one is the root drive.
fn has_other_root(config: &Config, drive: &Drive) -> bool
    ensures { result ≡ table.has_other_root config.now drive.now }
{
    let id = drive.drive_id.as_str();
    config
        .drives
        .as_slice()
        .iter()
        .any(|d| d.is_root_device && d.drive_id.as_str() != id)
}

/// What a PUT of a drive is refused by the configuration.
pub fn put_refusal(config: &Config, drive: &Drive) -> Option<Refusal>
    ensures { result ≡ table.first_refusal (table.drive_rows config.now drive.now) }
{
    if drive.is_root_device && has_other_root(config, drive) {
        Some(Refusal::SecondRootDrive)
    } else if !config.drives.has(drive.drive_id.as_str()) && has_no_room(config) {
        Some(Refusal::TooManyDevices)
    } else {
        None
    }
}

/// What a PATCH of a drive is refused by the configuration.
pub fn patch_refusal(config: &Config, patch: &DrivePatch) -> Option<Refusal>
    ensures { result ≡ table.first_refusal (table.drive_patch_rows config.now patch.now) }
{
    if config.drives.has(patch.drive_id.as_str()) {
        None
    } else {
        Some(Refusal::NoSuchId)
    }
}
