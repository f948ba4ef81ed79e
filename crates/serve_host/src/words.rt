// Where words come from that nobody else has.
ghost use Rattle.serve_host.specs.Drawing.{Draws};
ghost use Rattle.vm_outside.specs.Known.{Called, Tells};

use vm_outside::Failed;

/// Gives words of 64 bits, each once. A real one gives random words.
pub trait Words: Drop {
    ghost use Rattle.serve_host.specs.Drawing.{WordsKnown};

    ghost known: { Self → WordsKnown };

    /// Draws the next word.
    fn next(&mut self) -> Result<u64, Failed>
        ensures draws { Tells (known self.old).health → Draws (known self.old).left result (known self.new).left }
        ensures called { Called (known self.old).health (known self.new).health result };
}
