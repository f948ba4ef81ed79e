// The rounds.
ghost use Rattle.std.specs.Prelude.{◌≡◌, ◌+◌, ◌*◌, ◌++◌, ◌<◌, ◌^◌, ◌∷◌, [], ℕ};
ghost use Rattle.vm_types.specs.declared.ids.ActorId.TheVariants.{Hart};
ghost use Rattle.script_text.specs.declared.item.Item.TheVariants as item;
ghost use Rattle.vm_outside.specs.Known.{Called, Tells};
ghost use Rattle.vm_outside.specs.Passing.{TakesAll};
ghost use Rattle.load_gen.specs.Load.{create_diff, pause, resume, rounds, rounds_of, text_of};

use crate::draws::{rounds_of, steps_by, turn};
use crate::writing::write_numbered;
use vm_outside::{Failed, Sink};

// A diff's lines up to its first number, between both, and behind the second.
const DIFF_FRONT: &[u8] = b"api PATCH /vm {\"state\":\"Paused\"}\n\
api PUT /snapshot/create {\"snapshot_type\":\"Diff\",\"snapshot_path\":\"s";

const DIFF_MIDDLE: &[u8] = b"\",\"mem_file_path\":\"d";

const DIFF_END: &[u8] = b"\"}\napi PATCH /vm {\"state\":\"Resumed\"}\n";

pub fn write_rounds<K: Sink>(sink: &mut K, number: u32) -> Result<(), Failed>
    ensures takes { Tells (K.known sink.old).health →
        TakesAll (K.known sink.old).taken (K.known sink.new).taken result
        (text_of (rounds number (rounds_of number))) }
    ensures called { Called (K.known sink.old).health (K.known sink.new).health result }
{
    let count = rounds_of(number);
    let mut before = 0;
    let mut drawn = number as u64;
    while before < count {
        let first = turn(drawn);
        let second = turn(first);
        let Ok(()) = write_round(sink, before, steps_by(first), steps_by(second)) else {
            return Err(Failed);
        };
        drawn = second;
        before += 1;
    }
    Ok(())
}

fn write_round<K: Sink>(sink: &mut K, before: u32, first: u64, second: u64) -> Result<(), Failed>
    requires { before < 2 ^ 31 }
    ensures takes { Tells (K.known sink.old).health →
        TakesAll (K.known sink.old).taken (K.known sink.new).taken result
        (text_of (item.Step (Hart 0) first ∷ item.Step (Hart 1) second ∷ pause ∷ create_diff (before + 1) ∷ resume ∷ [])) }
    ensures called { Called (K.known sink.old).health (K.known sink.new).health result }
{
    let Ok(()) = write_steps(sink, first, second) else {
        return Err(Failed);
    };
    write_diff(sink, before + 1)
}

// The lines `step h0 A` and `step h1 B`.
fn write_steps<K: Sink>(sink: &mut K, first: u64, second: u64) -> Result<(), Failed>
    ensures takes { Tells (K.known sink.old).health →
        TakesAll (K.known sink.old).taken (K.known sink.new).taken result
        (text_of (item.Step (Hart 0) first ∷ item.Step (Hart 1) second ∷ [])) }
    ensures called { Called (K.known sink.old).health (K.known sink.new).health result }
{
    let Ok(()) = write_numbered(sink, b"step h0 ", first, b"\n") else {
        return Err(Failed);
    };
    write_numbered(sink, b"step h1 ", second, b"\n")
}

// The lines that pause, create the diff of this number, and resume.
fn write_diff<K: Sink>(sink: &mut K, number: u32) -> Result<(), Failed>
    ensures takes { Tells (K.known sink.old).health →
        TakesAll (K.known sink.old).taken (K.known sink.new).taken result
        (text_of (pause ∷ create_diff number ∷ resume ∷ [])) }
    ensures called { Called (K.known sink.old).health (K.known sink.new).health result }
{
    let Ok(()) = write_numbered(sink, DIFF_FRONT, number as u64, DIFF_MIDDLE) else {
        return Err(Failed);
    };
    write_numbered(sink, b"", number as u64, DIFF_END)
}
