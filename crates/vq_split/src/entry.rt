// Where an entry is of a table that a descriptor names, and how it is read.
ghost use Rattle.std.specs.Prelude.{◌≡◌, ◌≤◌, ◌<◌, ◌+◌, ◌*◌, ◌^◌};
ghost use Rattle.vq_split.specs.Chain.{entry_place, front_length};

use crate::queue::Table;

/// Where it is.
pub fn entry_place(table: &Table, at: u16) -> u64
    requires { table.now.at + 16 * at < 2 ^ 64 }
    ensures { result ≡ entry_place table.now at }
{
    table.at + 16 * at as u64
}

/// How many of its 16 bytes are in the page in which it begins.
pub fn front_length(place: u64) -> usize
    ensures length { result ≡ front_length place }
    ensures some { 0 < result }
    ensures most { result ≤ 16 }
{
    (4096 - place % 4096).min(16) as usize
}
