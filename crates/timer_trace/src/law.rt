// What holds of every trace and every timer.
ghost use Rattle.std.specs.Prelude.{◌≡◌, true, List, [], ◌∷◌, ◌++◌};
ghost use Rattle.vm_types.specs.declared.entry.Step.{Step};
ghost use Rattle.vm_types.specs.declared.op.Op.{Op};
ghost use Rattle.vm_types.specs.declared.reply.Reply.{Reply};
ghost use Rattle.vm_types.specs.Fits.{fits};
ghost use Rattle.timer_trace.specs.declared.timer.Timer.{Timer};
ghost use Rattle.timer_trace.specs.Traces.{Continues, IsPrefix};
ghost use Rattle.timer_trace.specs.States.{LeadsTo, new_timer, timer_next, timer_wants};

/// Traces: one op continues steps that go on to a trace, and with every fitting reply to it they go on.
pub fn one_op()
    ensures one { (steps : List Step) (a b : Op) → Continues steps a → Continues steps b → a ≡ b }
    ensures some { (steps : List Step) → IsPrefix steps → (op : Op) × Continues steps op }
    ensures any { (steps : List Step) (op : Op) (reply : Reply) → Continues steps op → fits op reply ≡ true →
        IsPrefix (steps ++ record { op = op; reply = reply } ∷ []) }
{}

/// Timers: where steps lead to a timer, its want is the op that continues them, and with a fitting reply they lead to
/// the next timer.
pub fn timer_follows()
    ensures begins { LeadsTo [] new_timer }
    ensures prefix { (steps : List Step) (timer : Timer) → LeadsTo steps timer → IsPrefix steps }
    ensures some { (steps : List Step) → IsPrefix steps → (timer : Timer) × LeadsTo steps timer }
    ensures wants { (steps : List Step) (timer : Timer) →
        LeadsTo steps timer → Continues steps (timer_wants timer) }
    ensures only { (steps : List Step) (timer : Timer) (op : Op) →
        LeadsTo steps timer → Continues steps op → op ≡ timer_wants timer }
    ensures one { (steps : List Step) (timer other : Timer) →
        LeadsTo steps timer → LeadsTo steps other → timer ≡ other }
    ensures goes_on { (steps : List Step) (timer : Timer) (reply : Reply) →
        LeadsTo steps timer → fits (timer_wants timer) reply ≡ true →
        LeadsTo (steps ++ record { op = timer_wants timer; reply = reply } ∷ []) (timer_next timer reply) }
{}
