// An open gate that is closed and opened.
ghost use Rattle.std.specs.Prelude.{◌≡◌, All, IfSome};

use pause_gate::{FlagGate, Gate, Pass};
use std::io;

pub fn print<R: Print + AllocGlobal>(rt: &R) -> io::Result<()> {
    let (gate, mut passes) = FlagGate::new(rt.alloc(), 2)?;
    let (Some(mut worker), Some(mut other)) = (
        pass_of(&gate, &mut passes),
        pass_of(&gate, &mut passes),
    ) else {
        return println!(rt; "no two passes");
    };
    let asked = asked(&gate, &mut worker, &mut other);
    println!(rt; "gate: passes left => {}", passes.len())?;
    println!(rt; "gate: open, closed twice, opened twice => {asked:?}")
}

/// One of the passes.
pub fn pass_of(gate: &FlagGate, passes: &mut Vec<Pass>) -> Option<Pass>
    requires { All (λ pass. pass.0 ≡ gate.now) passes.old.items }
    ensures pass { IfSome result (λ pass. pass.0 ≡ gate.now) }
    ensures rest { All (λ pass. pass.0 ≡ gate.now) passes.new.items }
{
    passes.pop()
}

fn asked(gate: &FlagGate, worker: &mut Pass, other: &mut Pass) -> [bool; 5]
    requires worker { worker.old.0 ≡ gate.now }
    requires other { other.old.0 ≡ gate.now }
{
    let open = gate.ask(worker);
    gate.close(other);
    let closed = (gate.ask(worker), gate.ask(other));
    gate.open(other);
    [open, closed.0, closed.1, gate.ask(worker), gate.ask(other)]
}
