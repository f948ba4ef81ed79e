// Both files of a snapshot.
ghost use Rattle.std.specs.Prelude.{◌≡◌, ◌≢◌, ◌<◌, ◌^◌, ◌∷◌, ◌++◌, Some, length, OnErr, OnOk};
ghost use Rattle.vm_outside.specs.Crashes.{Disk, Images};
ghost use Rattle.gate_file.specs.Pairs.{PairLeaves};
ghost use Rattle.gate_file.specs.Stages.{LeftMeanwhile};
ghost use Rattle.snap_writer.specs.Moments.{memory_target, state_target};
ghost use Rattle.vm_outside.specs.Known.{Called, Tells};
ghost use Rattle.snap_writer.specs.Blocks.{block_size};
ghost use Rattle.snap_writer.specs.Create.{Creates, CreatesPart};

use crate::filling::{fill_memory, fill_state};
use crate::room::Room;
use crate::saved_pages::SavedPages;
use gate_file::open_file;
use vm_outside::{Failed, Files};

/// Writes a snapshot: to `memory` an open gate, `head` and all pages, to `state` an open gate and `body`. The two
/// names differ. An `Err` leaves every other name as it was. No memory is taken.
pub fn create<F: Files>(
    files: &mut F,
    pages: &SavedPages<'_>,
    room: &mut Room,
    head: &[u8],
    body: &[u8],
    state: &str,
    memory: &str,
) -> Result<(), Failed>
    requires differ { memory.now ≢ state.now }
    ensures created { OnOk result (Tells (F.known files.old).health →
        Creates memory.now head.now pages.now state.now body.now
        (F.known files.old) (F.known files.new)) }
    ensures begun { OnErr result (Tells (F.known files.old).health →
        CreatesPart memory.now head.now pages.now state.now body.now
        (F.known files.old) (F.known files.new)) }
    ensures crash { Tells (F.known files.old).health → (disk : Disk) →
        (left : LeftMeanwhile (F.known files.old).calls (F.known files.new).calls disk) →
        PairLeaves (F.known files.old).calls (memory_target memory.now head.now pages.now)
        (state_target state.now body.now) left.moment.done disk }
    ensures lasting { OnOk result (Tells (F.known files.old).health → (disk : Disk) →
        Images (F.known files.new).calls disk → (disk memory.now ≡ Some (1 ∷ head.now ++ pages.now))
        × (disk state.now ≡ Some (1 ∷ body.now))) }
    ensures called { Called (F.known files.old).health (F.known files.new).health result }
{
    write_files(files, pages, room.block(), head, body, state, memory)
}

// The calls in their order.
fn write_files<F: Files>(
    files: &mut F,
    pages: &SavedPages<'_>,
    block: &mut [u8],
    head: &[u8],
    body: &[u8],
    state: &str,
    memory: &str,
) -> Result<(), Failed>
    requires room { length block.old ≡ block_size }
    requires differ { memory.now ≢ state.now }
    ensures created { OnOk result (Tells (F.known files.old).health →
        Creates memory.now head.now pages.now state.now body.now
        (F.known files.old) (F.known files.new)) }
    ensures begun { OnErr result (Tells (F.known files.old).health →
        CreatesPart memory.now head.now pages.now state.now body.now
        (F.known files.old) (F.known files.new)) }
    ensures called { Called (F.known files.old).health (F.known files.new).health result }
{
    fill_memory(files, memory, head, pages, block)?;
    fill_state(files, state, body)?;
    open_file(files, memory)?;
    open_file(files, state)?;
    Ok(())
}
