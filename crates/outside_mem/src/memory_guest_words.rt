// Words for the entropy devices of a guest, in memory.
ghost use Rattle.std.specs.Prelude.{◌≡◌, true, MatchOption};
ghost use Rattle.outside_mem.specs.Devices.{words_in};
ghost use Rattle.vm_host.specs.Giving.{GivesWord};

use crate::failing::Failing;
use crate::numbers::Numbers;
use vm_host::GuestWords;
use vm_outside::Failed;

/// The words of the devices from number 0 on. A call for a device without words is a failure.
#[derive(Drop)]
pub struct MemoryGuestWords {
    words: Vec<Numbers>,
    failing: Failing,
}

impl MemoryGuestWords {
    pub fn new(words: Vec<Numbers>, failing: Failing) -> MemoryGuestWords
        ensures { ⟦<MemoryGuestWords as GuestWords>⟧.known result ≡ record {
          health = record { tells = true; faults = failing };
          left = words_in words.items;
        } }
    {
        MemoryGuestWords { words, failing }
    }

    /// How many calls have failed.
    pub fn faults(&self) -> u64
        ensures { result ≡ (⟦<MemoryGuestWords as GuestWords>⟧.known self.now).health.faults }
    {
        self.failing.faults()
    }
}

impl GuestWords for MemoryGuestWords {
    ghost use Rattle.std.specs.Prelude.{true};
    ghost use Rattle.outside_mem.specs.Devices.{words_in};

    ghost known = { λ g. record { health = record { tells = true; faults = g.failing }; left = words_in g.words.items } };

    fn word(&mut self, device: u8) -> Result<u64, Failed> {
        if self.failing.fails() {
            return Err(Failed);
        }
        let Some(word) = word_of(&mut self.words, device as usize) else {
            self.failing.count();
            return Err(Failed);
        };
        Ok(word)
    }
}

fn word_of(words: &mut Vec<Numbers>, device: usize) -> Option<u64>
    ensures { MatchOption result (words_in words.new.items ≡ words_in words.old.items)
        (λ word. GivesWord device word (words_in words.old.items) (words_in words.new.items)) }
{
    if device >= words.len() {
        return None;
    }
    Some(words[device].next())
}
