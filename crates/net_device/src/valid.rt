// Whether a network device may be at a stage.
ghost use Rattle.std.specs.Prelude.{◌≡◌};
ghost use Rattle.net_device.specs.Work.{is_at};

use crate::kind::{HEADER_SIZE, Stage, pieces};
use crate::text::Text;

/// Whether there is something to want at this stage, with this frame on its way.
#[tactic(auto, using(crate::proofs::Working::share_is))]
pub(crate) fn is_at(stage: &Stage, frame: &Text) -> bool
    ensures { result ≡ is_at stage.now frame.now }
{
    let len = frame.len();
    match stage {
        Stage::Rest | Stage::End => true,
        Stage::Take(size, index) => {
            *size <= 1514
                && *index < pieces(*size)
                && len as u64 == HEADER_SIZE as u64 + 64 * *index
        }
        Stage::Receive(at, to) => 0 < len.saturating_sub(*at).min(to.room()),
        Stage::Read(_, from) => 0 < from.room(),
        Stage::Send(piece, _, _) => 0 < piece.as_slice().len(),
    }
}
