// One file of pages.
ghost use Rattle.std.specs.Prelude.{◌≡◌, ◌∷◌, ◌++◌, OnErr, OnOk};
ghost use Rattle.gate_file.specs.Runs.{RunsAll, RunsPart};
ghost use Rattle.snap_writer.specs.Saving.{saving_calls};
ghost use Rattle.vm_outside.specs.Known.{Called, Tells};

use crate::filling::fill_memory;
use crate::room::Room;
use crate::saved_pages::SavedPages;
use gate_file::open_file;
use vm_outside::{Failed, Files};

/// Writes one file: an open gate, `head` and all pages. An `Err` leaves every other name as it was. No memory is taken.
pub fn save<F: Files>(
    files: &mut F,
    name: &str,
    head: &[u8],
    pages: &SavedPages<'_>,
    room: &mut Room,
) -> Result<(), Failed>
    ensures saved { OnOk result (Tells (F.known files.old).health →
        RunsAll name.now (saving_calls name.now head.now pages.now) (1 ∷ head.now ++ pages.now)
        (F.known files.old) (F.known files.new)) }
    ensures begun { OnErr result (Tells (F.known files.old).health →
        RunsPart name.now (saving_calls name.now head.now pages.now) (F.known files.old) (F.known files.new)) }
    ensures called { Called (F.known files.old).health (F.known files.new).health result }
{
    fill_memory(files, name, head, pages, room.block())?;
    open_file(files, name)?;
    Ok(())
}
