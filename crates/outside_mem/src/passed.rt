// What passed on a connection in memory.
ghost use Rattle.std.specs.Prelude.{◌≤◌, length};

use serve_host::Got;

/// The bytes that a connection gives, how many of them it gave, and the bytes that it took.
#[derive(Drop)]
pub struct Passed {
    pub(crate) bytes: Vec<u8>,
    pub(crate) at: usize,
    pub(crate) took: Vec<u8>,
    ghost within: { at ≤ length bytes.items },
}

impl Passed {
    ghost use Rattle.std.specs.Prelude.{◌≡◌, ℕ};
    ghost use Rattle.outside_mem.specs.Pasts.{conn_known, gave_of, took_of, left_of};
    ghost use Rattle.serve_host.specs.Passing.{Comes, IsWithin};

    /// The bytes that it gave.
    pub fn gave(&self) -> &[u8]
        ensures { result.now ≡ gave_of self.now }
    {
        &self.bytes[..self.at]
    }

    /// The bytes that it took.
    pub fn took(&self) -> &[u8]
        ensures { result.now ≡ took_of self.now }
    {
        &self.took
    }

    /// The bytes that it has left to give.
    pub fn left(&self) -> &[u8]
        ensures { result.now ≡ left_of self.now }
    {
        &self.bytes[self.at..]
    }

    // Gives at most so many of the bytes that are left.
    pub(crate) fn give(&mut self, most: usize, buf: &mut [u8]) -> Got
        ensures within { IsWithin result (length buf.new) }
        ensures comes { (before now : ℕ) → Comes (conn_known self.old before) (conn_known self.new now) buf.new result }
        ensures took { took_of self.new ≡ took_of self.old }
    {
        let rest = self.left();
        if rest.is_empty() {
            return Got::End;
        }
        let count = rest.len().min(buf.len()).min(most);
        if count == 0 {
            return Got::NotYet;
        }
        buf[..count].copy_from_slice(&rest[..count]);
        self.at += count;
        Got::Bytes(count)
    }
}
