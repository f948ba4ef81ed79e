// The last line of a command.
ghost use Rattle.std.specs.Prelude.{◌≡◌, ◌++◌};
ghost use Rattle.rebase_cli.specs.Ends.{last_line};
ghost use Rattle.rebase_cli.specs.declared.end.End.TheVariants.{Refused};
ghost use Rattle.vm_outside.specs.Known.{Called, Tells};
ghost use Rattle.vm_outside.specs.Passing.{TakesAll};

use crate::end::End;
use itoa::Buffer;
use refusals::Refusal;
use vm_outside::{Failed, Sink, write_all, write_three};

/// Writes the last line of a command that ended so, without taking memory. After an `Err` the sink has taken a front of
/// it, and not all.
pub fn write_last<K: Sink>(sink: &mut K, end: End) -> Result<(), Failed>
    ensures takes { Tells (K.known sink.old).health →
        TakesAll (K.known sink.old).taken (K.known sink.new).taken result (last_line end) }
    ensures called { Called (K.known sink.old).health (K.known sink.new).health result }
{
    match end {
        End::Done => write_all(sink, b""),
        End::Refused(why) => write_refused(sink, why),
        End::Usage => write_all(sink, b". usage\n"),
        End::FilesFailed => write_all(sink, b". fault Files\n"),
        End::OutOfMemory => write_all(sink, b". memory\n"),
    }
}

fn write_refused<K: Sink>(sink: &mut K, why: Refusal) -> Result<(), Failed>
    ensures takes { Tells (K.known sink.old).health →
        TakesAll (K.known sink.old).taken (K.known sink.new).taken result (last_line (Refused why)) }
    ensures called { Called (K.known sink.old).health (K.known sink.new).health result }
{
    let mut buffer = Buffer::new();
    let number = buffer.format(why.number()).as_bytes();
    write_three(sink, b". refused ", number, b"\n")
}
