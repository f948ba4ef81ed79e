// A hart's parts, and the hart that has them.
ghost use Rattle.std.specs.Prelude.{◌≡◌, ◌≤◌, IfSome};
ghost use Rattle.guest_memory.specs.Ram.{ram_start};

use super::Hart;
use crate::begun::Begun;
use rv_doing::effect_of_word;
use rv_supervisor::Regs;

impl Hart {
    /// The hart that has these registers before an instruction, and the word of that instruction if it is begun. There
    /// are no instructions below RAM.
    pub fn from_parts(regs: Regs, word: Option<u32>) -> Hart
        requires { IfSome word (λ w. ram_start ≤ regs.pc) }
        ensures { result ≡ record { regs = regs; begun = word } }
    {
        let Some(word) = word else {
            return Hart::with_regs(regs);
        };
        let effect = effect_of_word(word, &regs);
        Hart {
            regs,
            begun: Some(Begun { effect, word }),
        }
    }

    /// The registers before the instruction.
    pub fn regs(&self) -> &Regs
        ensures { result.now ≡ self.now.regs }
    {
        &self.regs
    }

    /// The word of the instruction that it has begun.
    pub fn begun(&self) -> Option<u32>
        ensures { result ≡ self.now.begun }
    {
        match self.begun {
            None => None,
            Some(begun) => Some(begun.word),
        }
    }
}
