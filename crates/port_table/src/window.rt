// Where ports are.
ghost use Rattle.std.specs.Prelude.{◌≡◌};
ghost use Rattle.port_table.specs.Window as window;

use vm_types::GuestAddr;

/// Where the port of device 0 begins in the address space of the guest. The others follow by their numbers.
pub const PORTS_START: GuestAddr = 0x1000_0000;

/// How many bytes a port has.
pub const PORT_SIZE: u64 = 4096;

/// The most ports that there are, one for each line of the board.
pub const MOST_PORTS: u64 = 16;

/// The most devices that a guest has, each with a port.
pub const MOST_DEVICES: usize = 16;

/// The number of the port that has all of these bytes, one at least, or `None` where none has.
pub fn port_at(at: GuestAddr, len: usize) -> Option<u8>
    ensures { result ≡ window.port_at at len }
{
    if at < PORTS_START || at >= PORTS_START + MOST_PORTS * PORT_SIZE {
        return None;
    }
    if len == 0 || len as u64 > PORT_SIZE - at % PORT_SIZE {
        return None;
    }
    Some(((at - PORTS_START) / PORT_SIZE) as u8)
}
