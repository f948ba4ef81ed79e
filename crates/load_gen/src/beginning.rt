// What the script begins with.
ghost use Rattle.vm_outside.specs.Known.{Called, Tells};
ghost use Rattle.vm_outside.specs.Passing.{TakesAll};
ghost use Rattle.load_gen.specs.Load.{opening, text_of};

use crate::writing::word_digits;
use vm_outside::{Failed, Sink, write_three};

// The lines behind the lineage, up to the first round.
const OPENING: &[u8] = b"\n\
file k b75848009388d83413051000970500009385c50073000000970201009383130013fef307131ece00330e5e002f307e006ff0dffe\n\
api PUT /boot-source {\"kernel_image_path\":\"k\"}\n\
api PUT /machine-config {\"vcpu_count\":2,\"mem_size_mib\":4,\"track_dirty_pages\":true}\n\
api PUT /actions {\"action_type\":\"InstanceStart\"}\n\
step h0 7\n\
api PATCH /vm {\"state\":\"Paused\"}\n\
api PUT /snapshot/create {\"snapshot_path\":\"s0\",\"mem_file_path\":\"m0\"}\n\
api PATCH /vm {\"state\":\"Resumed\"}\n";

pub fn write_opening<K: Sink>(sink: &mut K, number: u64) -> Result<(), Failed>
    ensures takes { Tells (K.known sink.old).health →
        TakesAll (K.known sink.old).taken (K.known sink.new).taken result (text_of (opening number)) }
    ensures called { Called (K.known sink.old).health (K.known sink.new).health result }
{
    write_three(sink, b"lineage ", &word_digits(number), OPENING)
}
