// Events told to a trace, and the console to a sink.
ghost use Rattle.std.specs.Prelude.{◌≡◌, MatchResult, None, Some};
ghost use Rattle.serve_host.specs.Events.{event_items};
ghost use Rattle.serve_host.specs.Tracing.{steps_of};
ghost use Rattle.vm_outside.specs.Known.{Tells};
ghost use Rattle.vm_world.specs.Worlds.{WorldValue};
ghost use Rattle.monitor_running.specs.Happened.{HasHappened};
ghost use Rattle.monitor_running.specs.Items.{Drains, MayDrain, TellsSlice, TellsSteps};
ghost use Rattle.monitor_running.specs.Lasting.{TellingLasts};
ghost use Rattle.monitor_running.specs.Objects.{TurnKnown, known_with};
ghost use Rattle.monitor_running.specs.Ran.{end_by};
ghost use Rattle.monitor_running.specs.Staying.{MayBeDrained};
ghost use Rattle.monitor_running.specs.Turned.{IsTurnPart};

use crate::objects::TurnObjects;
use crate::ran::Ran;
use monitor_machine::drain_all;
use script_text::Item;
use serve_host::Trace;
use vm_outside::{Sink, write_all};
use vm_types::{ActorId, Entry};
use vm_world::World;

// What was not told to its end.
#[derive(Clone, Copy, Drop)]
enum Untold {
    Trace,
    Sink,
}

// The end for which something was not told.
fn end_by(why: Untold) -> Ran
    ensures { result ≡ end_by why }
{
    match why {
        Untold::Trace => Ran::TraceFailed,
        Untold::Sink => Ran::SinkFailed,
    }
}

// Drains a console that holds something: its item goes to the trace, and then its bytes to the sink, as they are.
fn drain<T: Trace, K: Sink>(guest: &mut World, trace: &mut T, sink: &mut K) -> Result<(), Untold>
    ensures drains { Tells (T.known trace.old).health → Tells (K.known sink.old).health →
        Drains result guest.old (T.known trace.old).took (K.known sink.old).taken
        guest.new (T.known trace.new).took (K.known sink.new).taken }
    ensures lasts { TellingLasts result guest.old (T.known trace.old) (K.known sink.old) guest.new (T.known trace.new) (K.known sink.new) }
{
    if guest.console().is_empty() {
        return Ok(());
    }
    let Ok(()) = trace.add(&Item::Console) else {
        return Err(Untold::Trace);
    };
    let sent = write_all(sink, guest.console());
    drain_all(guest);
    match sent {
        Ok(()) => Ok(()),
        Err(_) => Err(Untold::Sink),
    }
}

// The same where the sink is ready, and where the guest is off. Else the console keeps what it holds. The sink is asked in any
// case: what it took before and held back may go on by that.
fn drain_if_ready<T: Trace, K: Sink>(
    guest: &mut World,
    trace: &mut T,
    sink: &mut K,
) -> Result<(), Untold>
    ensures drains { Tells (T.known trace.old).health → Tells (K.known sink.old).health →
        MayDrain result guest.old (T.known trace.old).took (K.known sink.old).taken
        guest.new (T.known trace.new).took (K.known sink.new).taken }
    ensures lasts { TellingLasts result guest.old (T.known trace.old) (K.known sink.old) guest.new (T.known trace.new) (K.known sink.new) }
{
    if !sink.ready() && !guest.is_off() {
        return Ok(());
    }
    drain(guest, trace, sink)
}

// The events of a slice, and then a drain, or none.
fn slice_to<T: Trace, K: Sink>(
    events: &[Entry],
    guest: &mut World,
    trace: &mut T,
    sink: &mut K,
) -> Result<(), Untold>
    ensures told { Tells (T.known trace.old).health → Tells (K.known sink.old).health →
        TellsSlice result events.now guest.old (T.known trace.old).took (K.known sink.old).taken
        guest.new (T.known trace.new).took (K.known sink.new).taken }
    ensures lasts { TellingLasts result guest.old (T.known trace.old) (K.known sink.old) guest.new (T.known trace.new) (K.known sink.new) }
{
    let Ok(()) = trace.add_events(events) else {
        return Err(Untold::Trace);
    };
    drain_if_ready(guest, trace, sink)
}

// So many steps of an actor, and then a drain, or none.
fn steps_to<T: Trace, K: Sink>(
    actor: ActorId,
    count: u64,
    guest: &mut World,
    trace: &mut T,
    sink: &mut K,
) -> Result<(), Untold>
    ensures told { Tells (T.known trace.old).health → Tells (K.known sink.old).health →
        TellsSteps result actor count guest.old (T.known trace.old).took (K.known sink.old).taken
        guest.new (T.known trace.new).took (K.known sink.new).taken }
    ensures lasts { TellingLasts result guest.old (T.known trace.old) (K.known sink.old) guest.new (T.known trace.new) (K.known sink.new) }
{
    let Ok(()) = trace.add_steps(actor, count) else {
        return Err(Untold::Trace);
    };
    drain_if_ready(guest, trace, sink)
}

// Why turns end, where something was not told to its end.
fn end_of(told: Result<(), Untold>) -> Option<Ran>
    ensures { MatchResult told (λ done. result ≡ None) (λ why. result ≡ Some (end_by why)) }
{
    match told {
        Ok(()) => None,
        Err(why) => Some(end_by(why)),
    }
}

/// Tells the trace events that were made, and then drains the console, or leaves that for later (`drain_if_ready`). With what happened
/// before, it is a part of a turn.
pub fn tell_slice<W: TurnObjects, K: Sink>(
    events: &[Entry],
    guest: &mut World,
    with: &mut W,
    sink: &mut K,
) -> Option<Ran>
    ensures part { (first : TurnKnown) (w : WorldValue) → HasHappened (event_items events.now) first w (W.known with.old) guest.old →
        IsTurnPart result (known_with first (K.known sink.old)) w (known_with (W.known with.new) (K.known sink.new)) guest.new }
    ensures world { MayBeDrained guest.old guest.new }
{
    end_of(slice_to(events, guest, with.trace(), sink))
}

/// Tells the trace so many steps of an actor, and then drains the console as above. No item is made for them.
pub fn tell_steps<W: TurnObjects, K: Sink>(
    actor: ActorId,
    count: u64,
    guest: &mut World,
    with: &mut W,
    sink: &mut K,
) -> Option<Ran>
    ensures part { (first : TurnKnown) (w : WorldValue) → HasHappened (steps_of actor count) first w (W.known with.old) guest.old →
        IsTurnPart result (known_with first (K.known sink.old)) w (known_with (W.known with.new) (K.known sink.new)) guest.new }
    ensures world { MayBeDrained guest.old guest.new }
{
    end_of(steps_to(actor, count, guest, with.trace(), sink))
}
