// One file, filled behind its closed gate.
ghost use Rattle.std.specs.Prelude.{◌≡◌, ◌<◌, ◌^◌, ◌∷◌, ◌++◌, length, OnErr, OnOk};
ghost use Rattle.gate_file.specs.Runs.{RunsAll, RunsPart};
ghost use Rattle.snap_writer.specs.Blocks.{block_size};
ghost use Rattle.snap_writer.specs.Create.{memory_calls, state_calls};
ghost use Rattle.vm_outside.specs.Known.{Called, Tells};

use crate::pages::write_pages;
use crate::saved_pages::SavedPages;
use gate_file::close_file;
use vm_outside::{Failed, Files};

// The memory file with this header and these pages, its gate closed, and synced.
pub(crate) fn fill_memory<F: Files>(
    files: &mut F,
    name: &str,
    head: &[u8],
    pages: &SavedPages<'_>,
    block: &mut [u8],
) -> Result<(), Failed>
    requires room { length block.old ≡ block_size }
    ensures filled { OnOk result (Tells (F.known files.old).health →
        RunsAll name.now (memory_calls name.now head.now pages.now)
        (0 ∷ head.now ++ pages.now) (F.known files.old) (F.known files.new)) }
    ensures begun { OnErr result (Tells (F.known files.old).health →
        RunsPart name.now (memory_calls name.now head.now pages.now)
        (F.known files.old) (F.known files.new)) }
    ensures called { Called (F.known files.old).health (F.known files.new).health result }
{
    close_file(files, name)?;
    files.write_at(name, 1, head)?;
    write_pages(files, name, 1 + head.len() as u64, pages, block)?;
    Ok(())
}

// The state file with this body, its gate closed, and synced.
pub(crate) fn fill_state<F: Files>(files: &mut F, name: &str, body: &[u8]) -> Result<(), Failed>
    ensures filled { OnOk result (Tells (F.known files.old).health →
        RunsAll name.now (state_calls name.now body.now) (0 ∷ body.now) (F.known files.old) (F.known files.new)) }
    ensures begun { OnErr result (Tells (F.known files.old).health →
        RunsPart name.now (state_calls name.now body.now) (F.known files.old) (F.known files.new)) }
    ensures called { Called (F.known files.old).health (F.known files.new).health result }
{
    close_file(files, name)?;
    files.write_at(name, 1, body)?;
    files.sync(name)?;
    Ok(())
}
