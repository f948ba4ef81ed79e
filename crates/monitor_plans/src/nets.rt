// The device of a network interface: what it starts with, and whom a PATCH tells.
ghost use Rattle.std.specs.Prelude.{◌≡◌, ◌≤◌, true, get_or, option_map};
ghost use Rattle.vm_config.specs.Devices.{interface_device};
ghost use Rattle.api_calls.specs.Addresses as addresses;
ghost use Rattle.snap_state.specs.Valid.{is_interface};
ghost use Rattle.flat_machine.specs.Interfaces as interfaces;

use crate::limits::gate_of;
use crate::taken_config::TakenConfig;
use api_calls::Interface;
use net_device::NewNet;
use vm_types::TextList;

// The value of a hexadecimal digit with small letters.
fn digit_of(byte: u8) -> u8
    ensures digit { result ≡ addresses.digit_of byte }
    ensures most { result ≤ 15 }
{
    if 48 <= byte && byte <= 57 {
        byte - 48
    } else if 97 <= byte && byte <= 102 {
        byte - 87
    } else {
        0
    }
}

#[tactic(auto, using(crate::proofs::NetsMade::get_past))]
fn byte_at(text: &[u8], at: usize) -> u8
    ensures { result ≡ get_or text.now at 0 }
{
    if at < text.len() { text[at] } else { 0 }
}

// The byte whose digits stand from here on.
fn pair_at(text: &[u8], at: usize) -> u64
    requires { at ≤ 15 }
    ensures pair { result ≡ addresses.pair_at text.now at }
    ensures most { result ≤ 255 }
{
    let high = digit_of(byte_at(text, at)) as u64;
    let low = digit_of(byte_at(text, at + 1)) as u64;
    16 * high + low
}

// The six bytes of an address.
fn mac_number(text: &[u8]) -> u64
    ensures { result ≡ addresses.mac_number text.now }
{
    pair_at(text, 0)
        + 0x100 * pair_at(text, 3)
        + 0x1_0000 * pair_at(text, 6)
        + 0x100_0000 * pair_at(text, 9)
        + 0x1_0000_0000 * pair_at(text, 12)
        + 0x100_0000_0000 * pair_at(text, 15)
}

fn mac_of(mac: &Option<TextList>) -> Option<u64>
    ensures { result ≡ option_map addresses.mac_number mac.now }
{
    match mac {
        None => None,
        Some(mac) => Some(mac_number(mac.as_str().as_bytes())),
    }
}

/// What the device of an interface starts with.
#[tactic(auto, using(crate::proofs::NetsMade::receives_holds, crate::proofs::NetsMade::transmits_holds))]
pub fn new_net(interface: &Interface) -> NewNet
    requires { is_interface interface.now ≡ true }
    ensures { result ≡ interfaces.new_net interface.now }
{
    NewNet {
        mac: mac_of(&interface.guest_mac),
        rx: gate_of(&interface.rx_rate_limiter),
        tx: gate_of(&interface.tx_rate_limiter),
    }
}

/// The number of the device that the interface of this id is: the API takes 16 devices at most.
pub fn interface_number(config: &TakenConfig, id: &str) -> Option<u8>
    ensures { result ≡ interface_device config.now id.now }
{
    let Some(number) = config.get().interface_device(id) else {
        return None;
    };
    let device = number as u8;
    Some(device)
}
