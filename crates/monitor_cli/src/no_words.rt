// Words that can't be had.
ghost use Rattle.std.specs.Prelude.{◌≡◌};
ghost use Rattle.monitor_cli.specs.Command.{exit_of};

use vm_types::Exit;

/// Why a command's words can't be had.
#[derive(Clone, Copy, Drop)]
pub enum NoWords {
    /// A word is no UTF-8 text.
    NotText,
    OutOfMemory,
}

impl NoWords {
    /// How the program ends then.
    pub fn exit(&self) -> Exit
        ensures { result ≡ exit_of self.now }
    {
        match self {
            NoWords::NotText => Exit::Usage,
            NoWords::OutOfMemory => Exit::OutOfMemory,
        }
    }
}
