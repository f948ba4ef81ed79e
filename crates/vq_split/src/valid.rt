// Which walks there are.
ghost use Rattle.std.specs.Prelude.{◌≡◌, ◌<◌, ◌^◌, true};
ghost use Rattle.vq_split.specs.Inside.{AreInside};
ghost use Rattle.vq_split.specs.Kept.{are_inside, is_entry, is_part, is_sound, is_stage};
ghost use Rattle.vq_split.specs.Walking.{IsEntry, IsSound, IsStage};

use crate::entry::{entry_place, front_length};
use crate::fields::is_inside;
use crate::flaw::are_tables;
use crate::queue::{Part, Queue, Table};
use crate::walk::Stage;

/// Whether a walk may stand on this queue.
pub fn is_sound(queue: &Queue) -> bool
    ensures test { result ≡ is_sound queue.now }
    ensures sound { result ≡ true → IsSound queue.now }
{
    1 <= queue.size && queue.size <= 256 && are_tables(queue)
}

// Whether there is such an entry of a table, behind fewer parts than a chain has at most.
fn is_entry(queue: &Queue, table: &Table, at: u16, parts: &[Part]) -> bool
    ensures test { result ≡ is_entry queue.now table.now at parts.now }
    ensures entry { result ≡ true → IsEntry queue.now table.now at parts.now }
{
    queue.accepted.indirect
        && at < table.count
        && table.count <= 256
        && is_inside(queue.pages, table.at, 16 * table.count as u64)
        && parts.len() < 256
}

// A guest has fewer than 2^32 pages.
fn few_pages(queue: &Queue)
    ensures { queue.now.pages < 2 ^ 32 }
{
    let _pages = queue.pages;
}

/// Whether the stage of a walk fits the parts that it has.
pub fn is_stage(stage: &Stage, queue: &Queue, parts: &[Part]) -> bool
    ensures test { result ≡ is_stage stage.now queue.now parts.now }
    ensures stage { result ≡ true → IsStage stage.now queue.now parts.now }
{
    few_pages(queue);
    match stage {
        Stage::Index | Stage::Ring => parts.len() == 0,
        Stage::AvailEvent | Stage::IndexAgain => parts.len() == 0 && queue.accepted.event_index,
        Stage::Link { head: _, at } => *at < queue.size && parts.len() < queue.size as usize,
        Stage::Entry { head: _, table, at } => is_entry(queue, table, *at, parts),
        Stage::EntryRest {
            head: _,
            table,
            at,
            front,
        } => {
            is_entry(queue, table, *at, parts)
                && {
                    let length = front_length(entry_place(table, *at));
                    length < 16 && front.len() == length
                }
        }
    }
}

fn is_part(pages: u32, part: &Part) -> bool
    ensures { result ≡ is_part pages part.now }
{
    1 <= part.len && is_inside(pages, part.at, part.len as u64)
}

fn are_parts(pages: u32, parts: &[Part]) -> bool
    ensures { result ≡ are_inside pages parts.now }
{
    parts.iter().all(|part| is_part(pages, part))
}

/// Whether each of these parts has a byte at least, and lies inside RAM.
pub fn are_inside(pages: u32, parts: &[Part]) -> bool
    ensures test { result ≡ are_inside pages parts.now }
    ensures inside { result ≡ true → AreInside pages parts.now }
{
    are_parts(pages, parts)
}
