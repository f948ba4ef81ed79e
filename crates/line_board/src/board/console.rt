// The console's ring, and the reset.
ghost use Rattle.std.specs.Prelude.{◌≡◌, ◌≤◌, ◌-◌, ◌++◌, length, min, take, drop};
ghost use Rattle.board_table.specs.Calls.{put_byte, reset_by};

use crate::Board;
use crate::board::harts::refused;
use board_table::RING_SIZE;
use vm_types::Reply;

/// SBI_ERR_INVALID_PARAM, -3 (SBI, "Binary Encoding").
pub const INVALID_PARAMETER: u64 = 0xffff_ffff_ffff_fffd;

impl Board {
    pub fn put_byte(&mut self, byte: u8) -> Reply
        ensures reply { result ≡ (put_byte self.old byte).0 }
        ensures value { self.new ≡ (put_byte self.old byte).1 }
    {
        if self.off {
            return Reply::Done;
        }
        if self.held < RING_SIZE {
            self.ring[self.held] = byte;
            self.held += 1;
            Reply::Done
        } else {
            Reply::Full
        }
    }

    pub fn reset_by(&mut self, kind: u64, reason: u64) -> Reply
        ensures reply { result ≡ (reset_by self.old kind reason).0 }
        ensures value { self.new ≡ (reset_by self.old kind reason).1 }
    {
        if kind < 3 && reason < 2 {
            self.off = true;
            Reply::Returned { error: 0, value: 0 }
        } else {
            refused(INVALID_PARAMETER)
        }
    }
}

/// Moves the oldest of the held bytes to the front of `out`, and those that are left to the front of the ring.
pub fn move_out(ring: &mut [u8], held: usize, out: &mut [u8]) -> usize
    requires { held ≤ length ring.old }
    ensures count { result ≡ min (length out.old) held }
    ensures bytes { out.new ≡ take result (take held ring.old) ++ drop result out.old }
    ensures left { take (held - result) ring.new ≡ drop result (take held ring.old) }
{
    let count = out.len().min(held);
    out[..count].copy_from_slice(&ring[..count]);
    ring.copy_within(count..held, 0);
    count
}
