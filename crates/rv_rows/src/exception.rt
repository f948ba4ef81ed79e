// The exceptions of an instruction.
ghost use Rattle.std.specs.Prelude.{◌≡◌};
ghost use Rattle.rv_rows.specs.Exceptions.{code};

/// An exception (privileged manual, supervisor part, "Supervisor Cause Register").
#[derive(Clone, Copy, Debug, Drop)]
pub enum Exception {
    InstructionMisaligned,
    InstructionFault,
    IllegalInstruction,
    Breakpoint,
    LoadMisaligned,
    LoadFault,
    StoreMisaligned,
    StoreFault,
}

impl Exception {
    /// The exception's number in scause.
    pub fn code(self) -> u64
        ensures { result ≡ code self }
    {
        match self {
            Exception::InstructionMisaligned => 0,
            Exception::InstructionFault => 1,
            Exception::IllegalInstruction => 2,
            Exception::Breakpoint => 3,
            Exception::LoadMisaligned => 4,
            Exception::LoadFault => 5,
            Exception::StoreMisaligned => 6,
            Exception::StoreFault => 7,
        }
    }
}
