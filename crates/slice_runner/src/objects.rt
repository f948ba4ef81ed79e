// What devices ask in a slice.
ghost use Rattle.std.specs.Prelude.{◌≡◌, ℕ, true};
ghost use Rattle.vm_types.specs.declared.op.OutOp.{OutOp};
ghost use Rattle.vm_types.specs.declared.reply.Reply.{Reply};

use vm_types::{OutOp, Reply};

/// What devices ask of the host's objects, as one object that is lent to a slice.
pub trait DeviceObjects: Drop {
    ghost use Rattle.std.specs.Prelude.{Bool};
    ghost use Rattle.vm_types.specs.declared.op.OutOp.{OutOp};
    ghost use Rattle.vm_types.specs.declared.reply.Reply.{Reply};
    ghost use Rattle.vm_types.specs.Fits.{out_fits};

    ghost Known: { Type 0 };

    /// What is known of it.
    ghost known: { Self → Self.Known };

    /// The calls that it answers.
    ghost calls: { OutOp → Bool };

    /// What an answer to a call of the device with a number leaves of what is known.
    ghost Answers: { ℕ → OutOp → Reply → Self.Known → Self.Known → Type 0 };

    /// Whether it answers such a call.
    fn is_call(&self, act: &OutOp) -> bool
        ensures { result ≡ calls act.now };

    /// The answer to a call of the device with this number.
    fn answer(&mut self, device: u8, act: &OutOp) -> Reply
        requires { calls act.now ≡ true }
        ensures fits { out_fits act.now result ≡ true }
        ensures answers { Answers device act.now result (known self.old) (known self.new) };
}
