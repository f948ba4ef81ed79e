// What holds of every call.
ghost use Rattle.std.specs.Prelude.{◌≡◌, true};
ghost use Rattle.vm_types.specs.declared.op.BoardOp.{BoardOp};
ghost use Rattle.rv_supervisor.specs.declared.regs.Regs.{Regs};
ghost use Rattle.sbi_calls.specs.declared.step.SbiStep.TheVariants.{Act};
ghost use Rattle.sbi_calls.specs.Calls.{sbi, is_call_act};

/// A call is none of a hart's looks, of its accesses to sip and time, of a device's acts and of the timer's.
#[tactic(auto, using(crate::proofs::Asks::asked_act))]
pub fn sbi_asks()
    ensures { (r : Regs) (act : BoardOp) → sbi r ≡ Act act → is_call_act act ≡ true }
{}
