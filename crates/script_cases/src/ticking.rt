// A clock for guests.
use vm_host::Clock;

/// Each moment is so many nanoseconds behind the one before, and the first so many behind 0. A rest takes no time.
#[derive(Drop)]
pub struct Ticks {
    step: u64,
    moment: u64,
    asked: u64,
}

impl Ticks {
    pub fn new(step: u64) -> Ticks {
        Ticks {
            step,
            moment: 0,
            asked: 0,
        }
    }

    /// How many moments it told.
    pub fn asked(&self) -> u64 {
        self.asked
    }
}

impl Clock for Ticks {
    ghost use Rattle.std.specs.Prelude.{false};

    ghost known = { λ clock. record { tells = false; left = λ n. 0 } };

    fn now(&mut self) -> u64 {
        self.asked = self.asked.wrapping_add(1);
        self.moment = self.moment.wrapping_add(self.step);
        self.moment
    }

    fn rest(&mut self, _most: u64) {}
}
