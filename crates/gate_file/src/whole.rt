// A file made with all of its bytes.
ghost use Rattle.std.specs.Prelude.{OnErr, OnOk};
ghost use Rattle.gate_file.specs.Runs.{RunsAll, RunsPart, save_calls};
ghost use Rattle.vm_outside.specs.Known.{Called, Tells};

use vm_outside::{Failed, Files};

/// Makes the file of this name with these bytes, and has them outlive a crash. An `Err` leaves every other name as it
/// was.
pub fn save_file<F: Files>(files: &mut F, name: &str, content: &[u8]) -> Result<(), Failed>
    ensures saved { OnOk result (Tells (F.known files.old).health →
        RunsAll name.now (save_calls name.now content.now) content.now (F.known files.old) (F.known files.new)) }
    ensures begun { OnErr result (Tells (F.known files.old).health →
        RunsPart name.now (save_calls name.now content.now) (F.known files.old) (F.known files.new)) }
    ensures called { Called (F.known files.old).health (F.known files.new).health result }
{
    files.make(name)?;
    files.write_at(name, 0, content)?;
    files.sync(name)?;
    Ok(())
}
