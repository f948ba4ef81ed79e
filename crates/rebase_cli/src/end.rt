// How a command ends.
ghost use Rattle.std.specs.Prelude.{◌≡◌};
ghost use Rattle.rebase_cli.specs.Ends.{status_of};

use refusals::Refusal;

/// How a command ends.
#[derive(Clone, Copy, Debug, Drop)]
pub enum End {
    /// The diff is merged.
    Done,
    /// It is not, by the first rule that fits. Nothing was written.
    Refused(Refusal),
    /// The words are no command. Nothing was read.
    Usage,
    /// A call on the files failed. A merge that had begun is gone on with by the same command.
    FilesFailed,
    /// There was no memory. Nothing was written.
    OutOfMemory,
}

impl End {
    /// The status that the process ends with.
    pub fn status(&self) -> u8
        ensures { result ≡ status_of self.now }
    {
        match self {
            End::Done => 0,
            End::Refused(_) => 1,
            End::Usage => 2,
            End::FilesFailed => 4,
            End::OutOfMemory => 6,
        }
    }
}
