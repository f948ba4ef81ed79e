// What devices ask of the host in a slice, where each call fails.
use slice_runner::DeviceObjects;
use vm_types::{OutOp, Reply};

/// Objects of which each call fails.
#[derive(Drop)]
pub struct FailingObjects;

impl DeviceObjects for FailingObjects {
    ghost use Rattle.vm_types.specs.Fits.{out_fits};
    ghost use Rattle.vm_types.specs.declared.reply.Reply.TheVariants.{Failed};

    ghost Known = { Unit {0} };

    ghost known = { λ objects. tt };

    ghost calls = { λ act. out_fits act Failed };

    ghost Answers = { λ device act reply old new. Unit {0} };

    fn is_call(&self, act: &OutOp) -> bool {
        !matches!(act, OutOp::Clock)
    }

    fn answer(&mut self, _device: u8, _act: &OutOp) -> Reply {
        Reply::Failed
    }
}
