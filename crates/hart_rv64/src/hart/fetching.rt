// A hart that is to fetch its next instruction from RAM, and its registers, so that instructions are made one after another
// with no op and no reply between.
ghost use Rattle.std.specs.Prelude.{◌≡◌, true, None};
ghost use Rattle.std.specs.Borrow.{sem};

use crate::hart::Hart;
use rv_supervisor::{Regs, Turn};

impl Hart {
    ghost use Rattle.hart_rv64.specs.Fetching.{IsFetching};
    ghost use Rattle.hart_rv64.specs.Lending.{LendsRegs};

    /// Whether it is between two instructions and is to fetch the next one.
    #[inline]
    pub fn fetches(&self) -> bool
        ensures { result ≡ true → IsFetching self.now }
    {
        self.begun.is_none() && matches!(self.regs.turn, Turn::Fetch)
    }

    /// The registers of a hart between two instructions, which go on to be its own.
    #[inline]
    pub fn regs_mut(&mut self) -> &mut Regs
        requires { self.old.begun ≡ None }
        ensures* lends { sem 𝓛 (LendsRegs self.entry result) }
        ensures value { result.now ≡ self.old.regs }
    {
        &mut self.regs
    }
}
