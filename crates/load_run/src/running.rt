// A whole run, up to its line.
ghost use Rattle.std.specs.Prelude.{◌≡◌, IfOk, List, Some, map};
ghost use Rattle.script_text.specs.declared.item.Item.{Item};
ghost use Rattle.script_text.specs.Lines.{judged};
ghost use Rattle.vm_outside.specs.Known.{Lasts, Tells};
ghost use Rattle.load_run.specs.Running.{HoldNothing, IsRun, ShowsAtEnd};

use crate::line::run_line;
use crate::merging::{merge_rounds, pages_in};
use crate::no_line::NoLine;
use crate::replaying::replay;
use crate::scripts::{load_script, restore_script};
use crate::showing::words_of;
use flat_trace::every_trace_ready;
use hart_trace::hart_follows;
use load_gen::{load_is_read, rounds_of};
use restored_chain::restored_chain;
use script_text::whole_text;
use std::alloc::Global;
use vm_outside::Files;
use vm_types::ByteList;

// The line of the run of this number, over files that hold nothing.
pub fn line_of_run<F: Files>(alloc: Global, number: u32, files: &mut F) -> Result<ByteList, NoLine>
    requires tells { Tells (F.known files.old).health }
    requires empty { HoldNothing (F.known files.old) }
    ensures { IfOk result (λ line. IsRun number line) }
{
    every_trace_ready();
    hart_follows();
    load_is_read();
    restored_chain();
    whole_text();
    let rounds = rounds_of(number);
    let script = load_script(alloc, number)?;
    let source = words_at_end(alloc, script, files)?;
    let pages = pages_in(alloc, rounds, files)?;
    merge_rounds(alloc, rounds, files)?;
    let load = restore_script(alloc, rounds)?;
    let restored = words_at_end(alloc, load, files)?;
    let line = run_line(
        alloc,
        number,
        rounds,
        pages,
        source.as_slice(),
        restored.as_slice(),
    )?;
    Ok(line)
}

// What a machine that has not started shows when it has replayed this script, each of whose lines is an item.
fn words_at_end<F: Files>(
    alloc: Global,
    script: ByteList,
    files: &mut F,
) -> Result<ByteList, NoLine>
    requires tells { Tells (F.known files.old).health }
    requires lines { (items : List Item) × (judged script ≡ map (λ it. Some it) items) }
    ensures shows { IfOk result (λ words. ShowsAtEnd script (F.known files.old) words (F.known files.new)) }
    ensures lasts { Lasts (F.known files.old).health (F.known files.new).health }
{
    let mut monitor = replay(alloc, script, files)?;
    let words = words_of(alloc, &mut monitor, files)?;
    Ok(words)
}
