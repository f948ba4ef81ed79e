// Whether a hart runs.
ghost use Rattle.snap_harts.specs.HartStates.{hart_state};

use board_table::HartState;
use file_format::{Input, ReadError, Stored};
use std::alloc::{AllocError, Global};
use std::marker::Model;

/// Whether a hart runs, as a state file has it.
#[derive(Drop)]
pub struct SavedHartState {
    pub state: HartState,
}

impl Model for SavedHartState {
    ghost use Rattle.board_table.specs.declared.hart_state.HartState.{HartState};

    ghost Value = { HartState };

    ghost view = { λ s. s.state };
}

#[tactic(auto, unfolding(crate::specs::HartStates::hart_state, file_format::specs::Kinds::byte))]
impl Stored for SavedHartState {
    ghost format = { hart_state };

    fn write(&self, out: &mut Vec<u8>) -> Result<(), AllocError> {
        match self.state {
            HartState::Started => {
                0u8.write(out)?;
                out.extend_from_slice(&[0; 16])?;
            }
            HartState::Stopped => {
                1u8.write(out)?;
                out.extend_from_slice(&[0; 16])?;
            }
            HartState::StartPending { pc, word } => {
                2u8.write(out)?;
                pc.write(out)?;
                word.write(out)?;
            }
        }
        Ok(())
    }

    fn read(alloc: Global, input: &mut Input) -> Result<SavedHartState, ReadError> {
        let state = match u8::read(alloc, input)? {
            0 if input.skip(&[0; 16]) => HartState::Started,
            1 if input.skip(&[0; 16]) => HartState::Stopped,
            2 => {
                let (pc, word) = Stored::read(alloc, input)?;
                HartState::StartPending { pc, word }
            }
            _ => return Err(ReadError::Bad),
        };
        Ok(SavedHartState { state })
    }
}
