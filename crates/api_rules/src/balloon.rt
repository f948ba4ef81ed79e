// PUT, GET and PATCH /balloon, GET and PATCH /balloon/statistics
ghost use Rattle.std.specs.Prelude.{◌≡◌};
ghost use Rattle.api_calls.specs.declared.call.Part.TheVariants as part;
ghost use Rattle.api_rules.specs.Table as table;

use crate::room::has_no_room;
use api_calls::{Balloon, BalloonPatch, Part, StatisticsPatch};
use refusals::Refusal;
use vm_config::Config;

/// Whether a guest of so much memory can't give this amount.
pub fn is_beyond(mib: u64, amount: u64) -> bool
    ensures { result ≡ table.is_beyond mib amount }
{
    amount > mib
}

/// How much a balloon is to take.
pub fn amount_of(balloon: &Option<Balloon>) -> u64
    ensures { result ≡ table.amount_of balloon.now }
{
    match balloon {
        Some(balloon) => balloon.amount_mib,
        None => 0,
    }
}

// How many seconds there are between two reports.
fn interval_of(balloon: &Option<Balloon>) -> u64
    ensures { result ≡ table.interval_of balloon.now }
{
    match balloon {
        Some(balloon) => balloon.stats_polling_interval_s,
        None => 0,
    }
}

fn is_on(seconds: u64) -> bool
    ensures { result ≡ table.is_on seconds }
{
    seconds != 0
}

// Whether reports are switched on or off by another interval.
fn switches(old: u64, new: u64) -> bool
    ensures { result ≡ table.switches old new }
{
    (is_on(old) && !is_on(new)) || (is_on(new) && !is_on(old))
}

/// What a PUT of the balloon is refused by the configuration.
pub fn put_refusal(config: &Config, balloon: &Balloon) -> Option<Refusal>
    ensures { result ≡ table.first_refusal (table.balloon_rows config.now balloon.now) }
{
    if is_beyond(config.machine.mem_size_mib, balloon.amount_mib) {
        Some(Refusal::OutOfRange)
    } else if config.balloon.is_none() && has_no_room(config) {
        Some(Refusal::TooManyDevices)
    } else {
        None
    }
}

/// What another amount is refused by the configuration.
pub fn patch_refusal(config: &Config, patch: &BalloonPatch) -> Option<Refusal>
    ensures { result ≡ table.first_refusal (table.balloon_patch_rows config.now patch.now) }
{
    if config.balloon.is_none() {
        Some(Refusal::NoSuchId)
    } else if is_beyond(config.machine.mem_size_mib, patch.amount_mib) {
        Some(Refusal::OutOfRange)
    } else {
        None
    }
}

/// What another interval is refused by the configuration: reports are neither switched on nor off.
pub fn statistics_refusal(config: &Config, patch: &StatisticsPatch) -> Option<Refusal>
    ensures { result ≡ table.first_refusal (table.statistics_patch_rows config.now patch.now) }
{
    if config.balloon.is_none() {
        Some(Refusal::NoSuchId)
    } else if switches(interval_of(&config.balloon), patch.stats_polling_interval_s) {
        Some(Refusal::StatisticsOff)
    } else {
        None
    }
}

/// What a GET is refused by the configuration: there is no balloon, or it makes no reports.
pub fn told_refusal(config: &Config, told: Part) -> Option<Refusal>
    ensures { result ≡ table.first_refusal (table.told_rows config.now told) }
{
    match told {
        Part::Balloon => balloon_refusal(config),
        Part::Statistics => reports_refusal(config),
        Part::Instance | Part::Version | Part::MachineConfig | Part::Metadata | Part::VmConfig =>
            None,
    }
}

fn balloon_refusal(config: &Config) -> Option<Refusal>
    ensures { result ≡ table.first_refusal (table.told_rows config.now part.Balloon) }
{
    if config.balloon.is_none() {
        Some(Refusal::NoSuchId)
    } else {
        None
    }
}

fn reports_refusal(config: &Config) -> Option<Refusal>
    ensures { result ≡ table.first_refusal (table.told_rows config.now part.Statistics) }
{
    if config.balloon.is_none() {
        Some(Refusal::NoSuchId)
    } else if !is_on(interval_of(&config.balloon)) {
        Some(Refusal::StatisticsOff)
    } else {
        None
    }
}
