// The registers of a port.
ghost use Rattle.std.specs.Prelude.{◌≡◌};
ghost use Rattle.port_table.specs.Access as access;
ghost use Rattle.port_table.specs.Ports as ports;
ghost use Rattle.port_table.specs.Registers as registers;

use crate::config::reset_config;
use crate::queues::{is_queue, new_queue, notify};
use port_table::{DeviceKind, Feature, PortState, Register, register_at};

const MAGIC_VALUE: u32 = 0x7472_6976;

/// The largest size of a queue.
const QUEUE_NUM_MAX: u32 = 256;

/// Bits of Status (VIRTIO 1.2, 2.1).
pub const DRIVER_OK: u32 = 4;

const FEATURES_OK: u32 = 8;

pub const NEEDS_RESET: u32 = 64;

/// The port of a device of this kind that offers these features, with VIRTIO_F_VERSION_1 among them, and has this
/// configuration.
pub fn port_of(kind: DeviceKind, offered: u64, config: [u8; 8]) -> PortState
    ensures { result ≡ ports.port_of kind offered config }
{
    PortState {
        offered: offered | Feature::Version1.mask(),
        accepted: 0,
        queues: [new_queue(); 3],
        offered_select: 0,
        accepted_select: 0,
        queue_select: 0,
        interrupt_status: 0,
        status: 0,
        config_generation: 0,
        config,
        kind,
        is_reset_asked: false,
    }
}

/// The port after a reset.
pub fn as_new(state: &PortState) -> PortState
    ensures { result ≡ ports.as_new state.now }
{
    let mut config = state.config;
    reset_config(state.kind, &mut config);
    port_of(state.kind, state.offered, config)
}

fn with_low_half(number: u64, value: u32) -> u64
    ensures { result ≡ registers.with_low_half number value }
{
    0x1_0000_0000 * (number / 0x1_0000_0000) + value as u64
}

fn with_high_half(number: u64, value: u32) -> u64
    ensures { result ≡ registers.with_high_half number value }
{
    0x1_0000_0000 * value as u64 + number % 0x1_0000_0000
}

fn features_shown(features: u64, select: u32) -> u32
    ensures { result ≡ registers.features_shown features select }
{
    match select {
        0 => (features % 0x1_0000_0000) as u32,
        1 => (features / 0x1_0000_0000) as u32,
        _ => 0,
    }
}

fn features_written(features: u64, select: u32, value: u32) -> u64
    ensures { result ≡ registers.features_written features select value }
{
    match select {
        0 => with_low_half(features, value),
        1 => with_high_half(features, value),
        _ => features,
    }
}

pub fn has_bits(number: u64, bits: u64) -> bool
    ensures { result ≡ registers.has_bits number bits }
{
    number & bits == bits
}

fn are_good(offered: u64, accepted: u64) -> bool
    ensures { result ≡ registers.are_good offered accepted }
{
    has_bits(offered, accepted) && accepted / 0x1_0000_0000 % 2 == 1
}

fn status_taken(state: &PortState, value: u32) -> u32
    ensures { result ≡ registers.status_taken state.now value }
{
    if has_bits(value as u64, FEATURES_OK as u64) && !are_good(state.offered, state.accepted) {
        value - FEATURES_OK
    } else {
        value
    }
}

fn write_status(state: &mut PortState, value: u32)
    ensures { state.new ≡ registers.status_written state.old value }
{
    if state.is_reset_asked {
        return;
    }
    if value != 0 {
        state.status = status_taken(state, value);
    } else if state.status == 0 {
        *state = as_new(state);
    } else {
        state.is_reset_asked = true;
    }
}

/// What a read of a register shows.
fn register_value(state: &PortState, register: Register) -> u32
    ensures { result ≡ registers.register_value state.now register }
{
    let is_selected = is_queue(state, state.queue_select);
    match register {
        Register::MagicValue => MAGIC_VALUE,
        Register::Version => 2,
        Register::DeviceId => state.kind.device_id(),
        Register::DeviceFeatures => features_shown(state.offered, state.offered_select),
        Register::QueueNumMax => if is_selected { QUEUE_NUM_MAX } else { 0 },
        Register::QueueReady => if is_selected {
            state.queues[state.queue_select as usize].ready
        } else {
            0
        },
        Register::InterruptStatus => state.interrupt_status,
        Register::Status => state.status,
        Register::ConfigGeneration => state.config_generation,
        _ => 0,
    }
}

/// What a write of a register leaves.
fn put_register(state: &mut PortState, register: Register, value: u32)
    ensures { state.new ≡ registers.register_after state.old register value }
{
    let number = state.queue_select as usize;
    let is_selected = is_queue(state, state.queue_select);
    match register {
        Register::DeviceFeaturesSel => state.offered_select = value,
        Register::DriverFeatures => {
            state.accepted = features_written(state.accepted, state.accepted_select, value);
        }
        Register::DriverFeaturesSel => state.accepted_select = value,
        Register::QueueSel => state.queue_select = value,
        Register::QueueNum if is_selected => state.queues[number].size = value,
        Register::QueueReady if is_selected => state.queues[number].ready = value,
        Register::QueueNotify => notify(state, value),
        Register::InterruptAck => state.interrupt_status &= !value,
        Register::Status => write_status(state, value),
        Register::QueueDescLow if is_selected => {
            let old = state.queues[number].descriptors;
            state.queues[number].descriptors = with_low_half(old, value);
        }
        Register::QueueDescHigh if is_selected => {
            let old = state.queues[number].descriptors;
            state.queues[number].descriptors = with_high_half(old, value);
        }
        Register::QueueDriverLow if is_selected => {
            let old = state.queues[number].available;
            state.queues[number].available = with_low_half(old, value);
        }
        Register::QueueDriverHigh if is_selected => {
            let old = state.queues[number].available;
            state.queues[number].available = with_high_half(old, value);
        }
        Register::QueueDeviceLow if is_selected => {
            let old = state.queues[number].used;
            state.queues[number].used = with_low_half(old, value);
        }
        Register::QueueDeviceHigh if is_selected => {
            let old = state.queues[number].used;
            state.queues[number].used = with_high_half(old, value);
        }
        _ => {}
    }
}

/// What a read of the register at an offset shows, and 0 where there is none.
pub fn read_register(state: &PortState, offset: u64) -> u32
    ensures { result ≡ access.value_of state.now (registers.register_at offset) }
{
    match register_at(offset) {
        None => 0,
        Some(register) => register_value(state, register),
    }
}

/// Writes the register at an offset, if there is one.
pub fn write_register(state: &mut PortState, offset: u64, value: u32)
    ensures { state.new ≡ access.after_write state.old (registers.register_at offset) value }
{
    if let Some(register) = register_at(offset) {
        put_register(state, register, value);
    }
}
