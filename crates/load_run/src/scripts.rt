// The two scripts of a run.
ghost use Rattle.std.specs.Prelude.{◌≡◌, ◌≤◌, IfOk, List, Some, map};
ghost use Rattle.script_text.specs.declared.item.Item.{Item};
ghost use Rattle.script_text.specs.Lines.{judged};
ghost use Rattle.load_gen.specs.Load.{load_script};
ghost use Rattle.load_run.specs.Restoring.{restore_script};

use load_gen::{generate, load_is_read};
use outside_mem::{Failing, MemorySink};
use script_text::whole_text;
use script_words::numbered_words;
use std::alloc::{AllocError, Global};
use vm_types::ByteList;

// The script of this number. That a sink in memory fails is want of memory.
pub fn load_script(alloc: Global, number: u32) -> Result<ByteList, AllocError>
    ensures is { IfOk result (λ script. script ≡ load_script number) }
    ensures lines { IfOk result (λ script. (items : List Item) × (judged script ≡ map (λ it. Some it) items)) }
{
    load_is_read();
    let mut sink = MemorySink::new(alloc, usize::MAX, Failing::new(Vec::new(alloc)));
    let Ok(()) = generate(number, &mut sink) else {
        return Err(AllocError);
    };
    let script = ByteList::copy_of(alloc, sink.taken())?;
    Ok(script)
}

// The script that loads the snapshot of the last of so many rounds with the memory file.
pub fn restore_script(alloc: Global, rounds: u32) -> Result<ByteList, AllocError>
    requires { rounds ≤ 64 }
    ensures is { IfOk result (λ script. script ≡ restore_script rounds) }
    ensures lines { IfOk result (λ script. (items : List Item) × (judged script ≡ map (λ it. Some it) items)) }
{
    whole_text();
    let mut script = numbered_words(
        alloc,
        b"api PUT /snapshot/load {\"snapshot_path\":\"s",
        rounds as u64,
    )?;
    script.append(b"\",\"mem_file_path\":\"m0\"}\n")?;
    Ok(script)
}
