// The board of a machine that is on.
ghost use Rattle.snap_state.specs.Boards.{board};

use file_format::{Input, Items, ReadError, Stored};
use snap_harts::SavedHartState;
use std::alloc::{AllocError, Global};
use vm_types::ByteList;

/// The board of a machine that is on, but for guest time.
#[derive(Drop)]
pub struct SavedBoard {
    /// The interrupt lines that are pending, line k by bit k.
    pub pending: u16,
    /// For each hart the lines that it takes, by the same bits.
    pub enables: Items<u16>,
    /// For each hart whether its software interrupt is pending.
    pub software: Items<bool>,
    /// For each hart the moment from which on its timer interrupt is pending, in nanoseconds of guest time.
    pub deadlines: Items<u64>,
    /// For each hart whether it runs.
    pub states: Items<SavedHartState>,
    /// The console's bytes that were not drained, oldest first, at most 4,096.
    pub console: ByteList,
}

#[tactic(auto, unfolding(crate::specs::Boards::board))]
impl Stored for SavedBoard {
    ghost format = { board };

    fn write(&self, out: &mut Vec<u8>) -> Result<(), AllocError> {
        self.pending.write(out)?;
        self.enables.write(out)?;
        self.software.write(out)?;
        self.deadlines.write(out)?;
        self.states.write(out)?;
        self.console.write(out)?;
        Ok(())
    }

    fn read(alloc: Global, input: &mut Input) -> Result<SavedBoard, ReadError> {
        let (pending, (enables, (software, (deadlines, (states, console))))) = Stored::read(
            alloc, input,
        )?;
        Ok(SavedBoard {
            pending,
            enables,
            software,
            deadlines,
            states,
            console,
        })
    }
}
