// What a call tells the devices of a guest, and what its balloon tells.
ghost use Rattle.std.specs.Prelude.{◌≡◌, ◌≤◌, ◌<◌, ◌^◌, ℕ, Some, true, slice_get};
ghost use Rattle.api_calls.specs.Form.{holds};
ghost use Rattle.api_calls.specs.Limits.{is_limiter};
ghost use Rattle.api_calls.specs.declared.call.ApiCall.TheVariants as call;
ghost use Rattle.vm_config.specs.Changes.{with_amount, with_interval};
ghost use Rattle.vm_config.specs.Devices.{balloon_device, interface_device};
ghost use Rattle.guest_devices.specs.declared.device.Device.{Device};
ghost use Rattle.guest_devices.specs.Kept.{is_kept};
ghost use Rattle.guest_devices.specs.Ports.{shown_by};
ghost use Rattle.flat_guest.specs.Changes.{told};
ghost use Rattle.flat_guest.specs.Guest.{Guest};
ghost use Rattle.flat_machine.specs.Balloon as balloons;
ghost use Rattle.flat_machine.specs.Ready.{IsFitting};
ghost use Rattle.flat_machine.specs.Requests.{shows_by};
ghost use Rattle.vm_world.specs.Worlds.{IsWorld};
ghost use Rattle.monitor_plans.specs.Limiting.{tells_of};
ghost use Rattle.monitor_machine.specs.Telling.{Relimits, RelimitsBoth, Retargets, Retimes, TellsChange, TellsDevice, statistics_at, told_by};

use crate::machine::LiveMachine;
use api_calls::{ApiCall, Balloon, BalloonPatch, InterfacePatch, Limiter, StatisticsPatch};
use guest_devices::DeviceChange;
use monitor_plans::{
    LimitsOf, TakenConfig, amount_patched, balloon_number, device_number, interface_number,
    interval_patched, interval_told, limits_told, target_shown,
};
use vm_config::Statistics;
use vm_world::World;
use vq_split::value32;

// ---- what a device is told

fn tell_world(guest: &mut World, device: u8, change: DeviceChange)
    ensures { (g : Guest) → IsWorld guest.old g → IsWorld guest.new (told device change (shown_by change) g) }
{
    let shown = change.shown();
    guest.change(device, change, shown);
}

/// The device, if it is one, is told of a change, and its port shows what that shows.
pub(super) fn tell_device(guest: &mut Option<World>, device: Option<u8>, change: DeviceChange)
    ensures { TellsDevice device change (shows_by change) guest.old guest.new }
{
    let Some(device) = device else {
        return;
    };
    match guest {
        None => {}
        Some(guest) => tell_world(guest, device, change),
    }
}

/// It is told of these limits of it, if they are given.
pub(super) fn tell_limits(
    guest: &mut Option<World>,
    device: Option<u8>,
    of: LimitsOf,
    limiter: &Option<Limiter>,
)
    requires { holds is_limiter limiter.now ≡ true }
    ensures { Relimits (tells_of of) limiter.now device guest.old guest.new }
{
    let Some(limiter) = limiter else {
        return;
    };
    tell_device(guest, device, limits_told(of, limiter));
}

// The device of an interface is told of both limits.
fn tell_interface(guest: &mut Option<World>, config: &TakenConfig, patch: &InterfacePatch)
    requires { IsFitting config.now (call.PatchInterface patch.now) }
    ensures { RelimitsBoth patch.now (interface_device config.now patch.now.iface_id) guest.old guest.new }
{
    let device = interface_number(config, patch.iface_id.as_str());
    tell_limits(guest, device, LimitsOf::Receives, &patch.rx_rate_limiter);
    tell_limits(guest, device, LimitsOf::Transmits, &patch.tx_rate_limiter);
}

// What the port of the balloon shows once it is to take so much.
fn target_by(guest: &World, device: u8, balloon: &Balloon) -> Option<[u8; 8]>
    requires { balloon.now.amount_mib ≤ 4096 }
    ensures { result ≡ balloons.target_in balloon.now (slice_get guest.now.ports device) }
{
    match guest.shown(device) {
        None => None,
        Some(bytes) => Some(target_shown(balloon, bytes)),
    }
}

fn show_target(guest: &mut World, device: u8, balloon: &Balloon)
    requires few { balloon.now.amount_mib ≤ 4096 }
    requires near { balloon.now.stats_polling_interval_s < 2 ^ 16 }
    ensures { (g : Guest) → IsWorld guest.old g → IsWorld guest.new
        (told device (balloons.interval_told balloon.now) (balloons.target_in balloon.now (slice_get g.ports device)) g) }
{
    let shown = target_by(guest, device, balloon);
    guest.change(device, interval_told(balloon), shown);
}

fn tell_target(guest: &mut Option<World>, device: Option<u8>, balloon: &Balloon)
    requires few { balloon.now.amount_mib ≤ 4096 }
    requires near { balloon.now.stats_polling_interval_s < 2 ^ 16 }
    ensures { TellsDevice device (balloons.interval_told balloon.now) (balloons.target_in balloon.now) guest.old guest.new }
{
    let Some(device) = device else {
        return;
    };
    match guest {
        None => {}
        Some(guest) => show_target(guest, device, balloon),
    }
}

fn tell_amount(guest: &mut Option<World>, config: &TakenConfig, patch: &BalloonPatch)
    requires { IsFitting config.now (call.PatchBalloon patch.now) }
    ensures { Retargets (with_amount patch.now config.now.balloon) (balloon_device config.now) guest.old guest.new }
{
    let Some(balloon) = amount_patched(config, patch) else {
        return;
    };
    tell_target(guest, balloon_number(config), &balloon);
}

fn tell_interval(guest: &mut Option<World>, config: &TakenConfig, patch: &StatisticsPatch)
    requires { IsFitting config.now (call.PatchStatistics patch.now) }
    ensures { Retimes (with_interval patch.now config.now.balloon) (balloon_device config.now) guest.old guest.new }
{
    let Some(balloon) = interval_patched(config, patch) else {
        return;
    };
    tell_device(guest, balloon_number(config), interval_told(&balloon));
}

/// What a call that asks no file tells.
pub(super) fn tell_change(guest: &mut Option<World>, config: &TakenConfig, call: &ApiCall)
    requires { IsFitting config.now call.now }
    ensures { TellsChange call.now config.now guest.old guest.new }
{
    match call {
        ApiCall::PatchDrive(patch) => {
            let device = device_number(config, patch.drive_id.as_str());
            tell_limits(guest, device, LimitsOf::Requests, &patch.rate_limiter);
        }
        ApiCall::PatchInterface(patch) => tell_interface(guest, config, patch),
        ApiCall::PatchBalloon(patch) => tell_amount(guest, config, patch),
        ApiCall::PatchStatistics(patch) => tell_interval(guest, config, patch),
        _ => {}
    }
}

// ---- what the balloon tells

fn told_by(shown: Option<[u8; 8]>, told: Option<balloon_device::Statistics>) -> Option<Statistics>
    ensures { result ≡ told_by shown told }
{
    let Some(shown) = shown else {
        return None;
    };
    let Some(told) = told else {
        return None;
    };
    Some(statistics_of(&shown, &told))
}

fn statistics_of(shown: &[u8; 8], told: &balloon_device::Statistics) -> Statistics
    ensures { result ≡ balloons.statistics_of shown.now told.now }
{
    Statistics {
        target_pages: value32(shown, 0),
        actual_pages: value32(shown, 4),
        swap_in: told.values[0],
        swap_out: told.values[1],
        major_faults: told.values[2],
        minor_faults: told.values[3],
        free_memory: told.values[4],
        total_memory: told.values[5],
        available_memory: told.values[6],
        disk_caches: told.values[7],
        hugetlb_allocations: told.values[8],
        hugetlb_failures: told.values[9],
    }
}

fn statistics_at(guest: &World, device: Option<u8>) -> Option<Statistics>
    ensures is { result ≡ statistics_at device guest.now }
    ensures kept { (k : ℕ) (it : Device) → device ≡ Some k → slice_get guest.now.devices k ≡ Some it → is_kept it ≡ true }
{
    let Some(device) = device else {
        return None;
    };
    let told = guest.statistics(device);
    told_by(guest.shown(device), told)
}

impl LiveMachine {
    ghost use Rattle.monitor_machine.specs.Telling.{TellsOwn, statistics_in};

    // What its balloon tells, if it has one that runs.
    pub(super) fn statistics(&self) -> Option<Statistics>
        ensures is { result ≡ statistics_in self.now.config self.now.guest }
        ensures tells { TellsOwn self.now }
    {
        match &self.guest {
            None => None,
            Some(guest) => statistics_at(guest, balloon_number(&self.config)),
        }
    }

    // The devices of its guest are told of what is changed.
    pub(super) fn tell(&mut self, call: &ApiCall)
        requires { IsFitting self.old.config call.now }
        ensures tells { TellsChange call.now self.old.config self.old.guest self.new.guest }
        ensures rest { self.new ≡ record self.old { guest = self.new.guest } }
    {
        tell_change(&mut self.guest, &self.config, call);
    }
}
