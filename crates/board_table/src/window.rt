// Where the board's registers are, and how much its ring holds.
ghost use Rattle.std.specs.Prelude.{◌≡◌};
ghost use Rattle.board_table.specs.Window as window;

use vm_types::GuestAddr;

/// Where the board's registers begin in the address space of the guest.
pub const WINDOW_START: GuestAddr = 0x200_0000;

/// How many bytes they are.
pub const WINDOW_SIZE: usize = 4096;

/// How many bytes the console's ring holds.
pub const RING_SIZE: usize = 4096;

/// Whether all of these bytes are the board's.
pub fn is_window(at: GuestAddr, len: usize) -> bool
    ensures { result ≡ window.is_window at len }
{
    at >= WINDOW_START && (at - WINDOW_START) as u128 + len as u128 <= WINDOW_SIZE as u128
}
