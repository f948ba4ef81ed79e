// The pages of a memory file.
ghost use Rattle.std.specs.Prelude.{◌≡◌, ◌<◌, ◌≤◌, ◌*◌, ◌^◌, ◌∷◌, ◌++◌, List, ℕ, Some, length, take, drop, OnErr, OnOk};
ghost use Rattle.std.specs.FinMap.{get};
ghost use Rattle.gate_file.specs.Gate.{behind_calls};
ghost use Rattle.gate_file.specs.Runs.{RunsAll, RunsPart};
ghost use Rattle.snap_writer.specs.Blocks.{block_size, writes_at};
ghost use Rattle.vm_outside.specs.Known.{Called, Tells};

use crate::saved_pages::SavedPages;
use guest_memory::PAGE_SIZE;
use vm_outside::{Failed, Files};

/// How many bytes one write carries at most: a mebibyte, which is 256 pages.
pub const BLOCK_SIZE: usize = 256 * PAGE_SIZE;

// All pages at the end of a file that holds so many bytes, the first of them a closed gate; and a sync. `block` is
// where blocks are gathered.
pub(crate) fn write_pages<F: Files>(
    files: &mut F,
    name: &str,
    at: u64,
    pages: &SavedPages<'_>,
    block: &mut [u8],
) -> Result<(), Failed>
    requires early { at ≤ 2 ^ 63 }
    requires room { length block.old ≡ block_size }
    ensures filled { OnOk result (Tells (F.known files.old).health →
        (front : List ℕ) → get (F.known files.old).saved name.now ≡ Some (0 ∷ front) → at ≡ length (0 ∷ front) →
        RunsAll name.now
        (behind_calls name.now (writes_at at pages.now) (front ++ pages.now))
        (0 ∷ front ++ pages.now) (F.known files.old) (F.known files.new)) }
    ensures begun { OnErr result (Tells (F.known files.old).health →
        (front : List ℕ) → get (F.known files.old).saved name.now ≡ Some (0 ∷ front) → at ≡ length (0 ∷ front) →
        RunsPart name.now
        (behind_calls name.now (writes_at at pages.now) (front ++ pages.now))
        (F.known files.old) (F.known files.new)) }
    ensures called { Called (F.known files.old).health (F.known files.new).health result }
{
    let blocks = pages.len().div_ceil(BLOCK_SIZE);
    for number in 0..blocks {
        let count = gather(pages, number, block);
        files.write_at(name, at + (BLOCK_SIZE * number) as u64, &block[..count])?;
    }
    files.sync(name)?;
    Ok(())
}

// Puts the block of this number at the front of `block`, and answers how many bytes it has.
fn gather(pages: &SavedPages<'_>, number: usize, block: &mut [u8]) -> usize
    requires room { length block.old ≡ block_size }
    requires inside { block_size * number ≤ length pages.now }
    ensures most { result ≤ length block.new }
    ensures room { length block.new ≡ block_size }
    ensures bytes { take result block.new ≡ take block_size (drop (block_size * number) pages.now) }
{
    let all = pages.len();
    let done = BLOCK_SIZE * number;
    let count = BLOCK_SIZE.min(all - done);
    pages.copy_out(done, &mut block[..count]);
    count
}
