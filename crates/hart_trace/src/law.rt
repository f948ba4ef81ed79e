// What holds of every trace and every hart.
ghost use Rattle.std.specs.Prelude.{◌≡◌, ◌<◌, ◌%◌, ◌^◌, ℕ, true, false, List, [], ◌∷◌, ◌++◌};
ghost use Rattle.vm_types.specs.declared.entry.Step.{Step};
ghost use Rattle.vm_types.specs.declared.op.Op.{Op};
ghost use Rattle.vm_types.specs.declared.reply.Reply.{Reply};
ghost use Rattle.vm_types.specs.Fits.{fits};
ghost use Rattle.rv_supervisor.specs.declared.regs.Regs.{Regs};
ghost use Rattle.rv_supervisor.specs.Start.{start_regs};
ghost use Rattle.hart_trace.specs.Asks.{IsAligned, IsNaturalOp, is_hart_op, is_host_op, is_port_op};
ghost use Rattle.hart_trace.specs.Kept.{IsKept, IsRamReply, IsReply, IsShaped, IsSmallOp};
ghost use Rattle.hart_trace.specs.Stopped.{stopped_regs};
ghost use Rattle.hart_trace.specs.Traces.{Continues, IsPrefix};
ghost use Rattle.hart_trace.specs.States.{Hart, LeadsTo, fresh, hart_next, hart_wants};

/// Traces: one op continues steps that go on to a trace, and with every fitting reply to it they go on.
pub fn one_op()
    ensures one { (start : Regs) (steps : List Step) (a b : Op) →
        Continues start steps a → Continues start steps b → a ≡ b }
    ensures some { (start : Regs) (steps : List Step) → IsPrefix start steps → (op : Op) × Continues start steps op }
    ensures any { (start : Regs) (steps : List Step) (op : Op) (reply : Reply) →
        Continues start steps op → fits op reply ≡ true →
        IsPrefix start (steps ++ record { op = op; reply = reply } ∷ []) }
{}

/// Harts: where steps lead to a hart, its want is the op that continues them, and with a fitting reply
/// they lead to the next hart.
pub fn hart_follows()
    ensures begins { (start : Regs) → LeadsTo start [] (fresh start) }
    ensures prefix { (start : Regs) (steps : List Step) (hart : Hart) →
        LeadsTo start steps hart → IsPrefix start steps }
    ensures some { (start : Regs) (steps : List Step) →
        IsPrefix start steps → (hart : Hart) × LeadsTo start steps hart }
    ensures wants { (start : Regs) (steps : List Step) (hart : Hart) →
        LeadsTo start steps hart → Continues start steps (hart_wants hart) }
    ensures only { (start : Regs) (steps : List Step) (hart : Hart) (op : Op) →
        LeadsTo start steps hart → Continues start steps op → op ≡ hart_wants hart }
    ensures one { (start : Regs) (steps : List Step) (hart other : Hart) →
        LeadsTo start steps hart → LeadsTo start steps other → hart ≡ other }
    ensures goes_on { (start : Regs) (steps : List Step) (hart : Hart) (reply : Reply) →
        LeadsTo start steps hart → fits (hart_wants hart) reply ≡ true →
        LeadsTo start (steps ++ record { op = hart_wants hart; reply = reply } ∷ []) (hart_next hart reply) }
{}

/// Harts want no act on a host object and none on a port. From a pc at a multiple of 4 on, as at every start, all their
/// accesses are of 1, 2, 4 or 8 bytes at a multiple of their number, and so inside one granule and one page.
pub fn hart_asks()
    ensures never_out { (h : Hart) → is_host_op (hart_wants h) ≡ false }
    ensures never_port { (h : Hart) → is_port_op (hart_wants h) ≡ false }
    ensures asks { (h : Hart) → is_hart_op (hart_wants h) ≡ true }
    ensures natural { (h : Hart) → IsAligned h.regs → IsNaturalOp (hart_wants h) }
    ensures starts { (pc first second : ℕ) → pc % 4 ≡ 0 → IsAligned (start_regs pc first second) }
    ensures aligned { (h : Hart) (reply : Reply) → IsAligned h.regs → IsAligned (hart_next h reply).regs }
{}

/// A hart that a state file can have, in a memory of whole granules: as each hart is at a start, and as it stays with what
/// a machine replies. What it asks for is then small.
pub fn hart_kept()
    ensures starts { (size pc first second : ℕ) → pc < 2 ^ 64 → pc % 4 ≡ 0 → first < 2 ^ 64 → second < 2 ^ 64 →
        IsKept size (fresh (start_regs pc first second)) }
    ensures stopped { (size : ℕ) → IsKept size (fresh stopped_regs) }
    ensures stays { (size : ℕ) (h : Hart) (reply : Reply) → size % 8 ≡ 0 → IsReply size (hart_wants h) reply →
        IsKept size h → IsKept size (hart_next h reply) }
    ensures asks { (size : ℕ) (h : Hart) → IsKept size h → IsSmallOp (hart_wants h) }
{}

/// A hart keeps its shape, whatever the widths of its numbers are, where no word but of RAM is replied to a load-reserved.
pub fn hart_shaped()
    ensures starts { (size pc first second : ℕ) → pc % 4 ≡ 0 → IsShaped size (fresh (start_regs pc first second)) }
    ensures stopped { (size : ℕ) → IsShaped size (fresh stopped_regs) }
    ensures stays { (size : ℕ) (h : Hart) (reply : Reply) → size % 8 ≡ 0 → IsRamReply size (hart_wants h) reply →
        IsShaped size h → IsShaped size (hart_next h reply) }
{}
