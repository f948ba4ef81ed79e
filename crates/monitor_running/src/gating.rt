// The gate, which is asked with the first pass.
ghost use Rattle.std.specs.Prelude.{◌≡◌, ◌<◌, length, All, MatchBool, None, Some};
ghost use Rattle.monitor_running.specs.declared.ran.Ran.TheVariants as ran;
ghost use Rattle.monitor_running.specs.Passes.{ArePassed};

use pause_gate::Gate;

/// Whether the gate is open.
pub fn is_open<Q, G: Gate<Pass = Q>>(gate: &G, passes: &mut Vec<Q>) -> bool
    requires some { 0 < length passes.old.items }
    requires serve { All (G.serves gate.now) passes.old.items }
    ensures { MatchBool result
        (ArePassed (G.serves gate.now) G.tally None passes.old.items passes.new.items)
        (ArePassed (G.serves gate.now) G.tally (Some ran.Closed) passes.old.items passes.new.items) }
{
    gate.ask(&mut passes[0])
}

/// The same in the middle of a turn, which is no end of turns: who asks before the next one finds the gate closed.
pub fn looks_open<Q, G: Gate<Pass = Q>>(gate: &G, passes: &mut Vec<Q>) -> bool
    requires some { 0 < length passes.old.items }
    requires serve { All (G.serves gate.now) passes.old.items }
    ensures { ArePassed (G.serves gate.now) G.tally None passes.old.items passes.new.items }
{
    is_open(gate, passes)
}
