// The gate of a file.
ghost use Rattle.std.specs.Prelude.{◌≡◌, ◌∷◌, [], List, ℕ, Some, OnErr, OnOk};
ghost use Rattle.std.specs.FinMap.{get};
ghost use Rattle.gate_file.specs.Gate.{close_calls, open_calls};
ghost use Rattle.gate_file.specs.Runs.{RunsAll, RunsPart};
ghost use Rattle.vm_outside.specs.Known.{Called, Tells};

use crate::whole::save_file;
use vm_outside::{Failed, Files};

/// Makes a file that holds a closed gate and nothing else, which outlives a crash. An `Err` leaves every other name as
/// it was.
pub fn close_file<F: Files>(files: &mut F, name: &str) -> Result<(), Failed>
    ensures closed { OnOk result (Tells (F.known files.old).health →
        RunsAll name.now (close_calls name.now) (0 ∷ []) (F.known files.old) (F.known files.new)) }
    ensures begun { OnErr result (Tells (F.known files.old).health →
        RunsPart name.now (close_calls name.now) (F.known files.old) (F.known files.new)) }
    ensures called { Called (F.known files.old).health (F.known files.new).health result }
{
    save_file(files, name, &[0])?;
    Ok(())
}

/// Opens the gate of a file that holds a closed one, and has that outlive a crash too. An `Err` leaves every other
/// name as it was.
pub fn open_file<F: Files>(files: &mut F, name: &str) -> Result<(), Failed>
    ensures opened { OnOk result (Tells (F.known files.old).health →
        (rest : List ℕ) → get (F.known files.old).saved name.now ≡ Some (0 ∷ rest) →
        RunsAll name.now (open_calls name.now rest) (1 ∷ rest) (F.known files.old) (F.known files.new)) }
    ensures begun { OnErr result (Tells (F.known files.old).health →
        (rest : List ℕ) → get (F.known files.old).saved name.now ≡ Some (0 ∷ rest) →
        RunsPart name.now (open_calls name.now rest) (F.known files.old) (F.known files.new)) }
    ensures called { Called (F.known files.old).health (F.known files.new).health result }
{
    files.write_at(name, 0, &[1])?;
    files.sync(name)?;
    Ok(())
}
