// The balloon: what it starts with, and what it is told.
ghost use Rattle.std.specs.Prelude.{◌≡◌, ◌≤◌, ◌<◌, ◌^◌, IfSome};
ghost use Rattle.api_calls.specs.declared.call.ApiCall.TheVariants as call;
ghost use Rattle.vm_config.specs.Changes.{with_amount, with_interval};
ghost use Rattle.vm_config.specs.Devices.{balloon_device};
ghost use Rattle.port_table.specs.declared.state.PortState.{PortState};
ghost use Rattle.balloon_device.specs.Port as port;
ghost use Rattle.flat_machine.specs.Balloon as balloons;
ghost use Rattle.flat_machine.specs.Ready.{IsFitting};

use crate::taken_config::TakenConfig;
use api_calls::{Balloon, BalloonPatch, StatisticsPatch};
use balloon_device::{BalloonChange, NewBalloon};
use guest_devices::DeviceChange;
use le_fields::put32;

/// A MiB has so many pages of 4,096 bytes.
const PAGES: u64 = 256;

// How many pages it is to take. A machine has at most 4,096 MiB.
fn target_of(balloon: &Balloon) -> u32
    requires { balloon.now.amount_mib ≤ 4096 }
    ensures { result ≡ balloons.target_of balloon.now }
{
    (PAGES * balloon.amount_mib) as u32
}

/// What a balloon starts with.
pub fn new_balloon(balloon: &Balloon) -> NewBalloon
    requires few { balloon.now.amount_mib ≤ 4096 }
    requires near { balloon.now.stats_polling_interval_s < 2 ^ 16 }
    ensures { result ≡ balloons.new_balloon balloon.now }
{
    NewBalloon {
        target: target_of(balloon),
        deflates_on_oom: balloon.deflate_on_oom,
        interval: balloon.stats_polling_interval_s as u16,
    }
}

/// What it is told with every change.
pub fn interval_told(balloon: &Balloon) -> DeviceChange
    requires { balloon.now.stats_polling_interval_s < 2 ^ 16 }
    ensures { result ≡ balloons.interval_told balloon.now }
{
    DeviceChange::Balloon(BalloonChange::Interval(balloon.stats_polling_interval_s as u16))
}

/// What its port shows once it is to take so much, by what it showed.
pub fn target_shown(balloon: &Balloon, shown: [u8; 8]) -> [u8; 8]
    requires { balloon.now.amount_mib ≤ 4096 }
    ensures { (p : PortState) → p.config ≡ shown → result ≡ port.target_shown (balloons.target_of balloon.now) p }
{
    let mut bytes = shown;
    put32(&mut bytes, 0, target_of(balloon));
    bytes
}

/// The number of the device that the balloon is.
pub fn balloon_number(config: &TakenConfig) -> Option<u8>
    ensures { result ≡ balloon_device config.now }
{
    let Some(number) = config.get().balloon_device() else {
        return None;
    };
    let device = number as u8;
    Some(device)
}

/// The balloon that is to take another amount, if there is one.
pub fn amount_patched(config: &TakenConfig, patch: &BalloonPatch) -> Option<Balloon>
    requires { IsFitting config.now (call.PatchBalloon patch.now) }
    ensures is { result ≡ with_amount patch.now config.now.balloon }
    ensures few { IfSome result (λ b. b.amount_mib ≤ 4096) }
    ensures near { IfSome result (λ b. b.stats_polling_interval_s < 2 ^ 16) }
{
    let Some(balloon) = &config.get().balloon else {
        return None;
    };
    Some(Balloon {
        amount_mib: patch.amount_mib,
        deflate_on_oom: balloon.deflate_on_oom,
        stats_polling_interval_s: balloon.stats_polling_interval_s,
    })
}

/// The balloon that has another interval, if there is one.
pub fn interval_patched(config: &TakenConfig, patch: &StatisticsPatch) -> Option<Balloon>
    requires { IsFitting config.now (call.PatchStatistics patch.now) }
    ensures is { result ≡ with_interval patch.now config.now.balloon }
    ensures near { IfSome result (λ b. b.stats_polling_interval_s < 2 ^ 16) }
{
    let Some(balloon) = &config.get().balloon else {
        return None;
    };
    Some(Balloon {
        amount_mib: balloon.amount_mib,
        deflate_on_oom: balloon.deflate_on_oom,
        stats_polling_interval_s: patch.stats_polling_interval_s,
    })
}
