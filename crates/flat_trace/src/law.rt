// What a script's line does that an item of a trace does.
ghost use Rattle.std.specs.Prelude.{◌≡◌, ◌≤◌, ◌++◌, ℕ, List, [], Some, false, length, true};
ghost use Rattle.vm_types.specs.Fits.{out_fits};
ghost use Rattle.vm_types.specs.declared.exit.Exit.{Exit};
ghost use Rattle.vm_types.specs.declared.ids.ActorId.{ActorId};
ghost use Rattle.vm_types.specs.declared.op.OutOp.{OutOp};
ghost use Rattle.vm_types.specs.declared.reply.Reply.{Reply};
ghost use Rattle.script_text.specs.declared.item.HostReply.{HostReply};
ghost use Rattle.script_text.specs.declared.item.Item.TheVariants as item;
ghost use Rattle.serve_host.specs.Events.{host_reply};
ghost use Rattle.flat_guest.specs.Given.Given.{Host};
ghost use Rattle.flat_machine.specs.Given.{reply_given};
ghost use Rattle.flat_machine.specs.Items.{ItemStep};
ghost use Rattle.flat_machine.specs.Machine.{Machine, is_off};
ghost use Rattle.flat_machine.specs.Ready.{Ready};
ghost use Rattle.flat_machine.specs.Replay.{IsReplay, closed, closing, judged_script};
ghost use Rattle.flat_machine.specs.Run.{Act, OnBefore, lines_done};
ghost use Rattle.flat_machine.specs.Run as script;
ghost use Rattle.flat_trace.specs.Replays.{ReplaysToOff};
ghost use Rattle.flat_trace.specs.Showing.{Out, Quiet, Run, TraceStep, lines};

/// Where the guest is on, an event's item is the script's line `step ACTOR 1` that writes nothing.
pub fn line_of_event()
    ensures { (actor : ActorId) (m n : Machine) → is_off m ≡ false →
        TraceStep (item.Step actor 1) [] m Quiet n → ItemStep (item.Step actor 1) [] m [] n }
{}

/// An item with the answer of a host object is the script's line `reply ACTOR R` that writes nothing.
pub fn line_of_reply()
    ensures { (actor : ActorId) (reply : HostReply) (m n : Machine) →
        TraceStep (item.Reply actor reply) [] m Quiet n → ItemStep (item.Reply actor reply) [] m [] n }
{}

/// The line of what a host object answered gives the actor that same answer. A piece has at most 64 bytes.
pub fn reply_again()
    ensures { (act : OutOp) (reply : Reply) → out_fits act reply ≡ true →
        ((piece : List ℕ) (connection : ℕ) → reply ≡ Reply.Received piece connection → length piece ≤ 64) →
        reply_given (host_reply reply) ≡ Host reply }
{}

/// A trace is a script, as long as the guest is on before each of its items: the run of its lines leaves the same machine,
/// and writes the lines of what the trace showed, each response and each drain of the console. So the replay of a script of
/// these lines gives the same answers and the same console, and ends as a script does that is done. Where the guest turned
/// itself off, items may stand behind the event that did so, as its slice goes on and the console is drained. The replay
/// ends at that event, and it too writes all lines that the trace showed, and last what the console held and that the guest
/// is off. Where the guest is on in the end, it was on before each item, so each trace is one or the other.
pub fn trace_replays()
    ensures run { (acts : List Act) (m n : Machine) (outs : List Out) → OnBefore acts m → Run acts m outs n →
        script.Run acts m (lines outs) n }
    ensures replay { (text : List ℕ) (acts : List Act) (m n : Machine) (outs : List Out) →
        judged_script text ≡ lines_done acts → OnBefore acts m → Run acts m outs n →
        IsReplay text m acts Exit.Done (lines outs ++ closing Exit.Done n) (closed Exit.Done n) }
    ensures off { (text : List ℕ) (acts : List Act) (m n : Machine) (outs : List Out) →
        judged_script text ≡ lines_done acts → is_off n ≡ true → Run acts m outs n →
        ReplaysToOff text m acts (lines outs ++ closing Exit.Done n) }
    ensures on { (acts : List Act) (m n : Machine) (outs : List Out) → is_off n ≡ false → Run acts m outs n → OnBefore acts m }
{}

/// A machine that is ready stays so over a trace, so that each copy of its guest passes every test of a state file.
pub fn every_trace_ready()
    ensures { (acts : List Act) (m n : Machine) (outs : List Out) → Ready m → Run acts m outs n → Ready n }
{}
