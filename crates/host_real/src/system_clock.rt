// The system's clock.
use crate::bell::Bell;
use std::rt;
use std::time::Duration;
use vm_host::Clock;

// No rest is longer, in nanoseconds: a second.
const LONG_REST: u64 = 1_000_000_000;

/// The clock that never goes back. Where the system doesn't tell it, the last moment is told again.
#[derive(Drop)]
pub struct SystemClock<'a, R> {
    rt: &'a R,
    bell: &'a Bell,
    last: u64,
}

impl<'a, R: rt::Clock> SystemClock<'a, R> {
    pub fn new(rt: &'a R, bell: &'a Bell) -> SystemClock<'a, R> {
        SystemClock { rt, bell, last: 0 }
    }
}

impl<'a, R: rt::Clock> Clock for SystemClock<'a, R> {
    ghost use Rattle.std.specs.Prelude.{false};

    ghost known = { λ _. record { tells = false; left = λ n. 0 } };

    fn now(&mut self) -> u64 {
        if let Ok(passed) = self.rt.monotonic() {
            self.last = u64::try_from(passed.as_nanos()).unwrap_or(u64::MAX);
        }
        self.last
    }

    /// It ends where the bell rings, and after a second at most.
    fn rest(&mut self, most: u64) {
        self.bell
            .rest(self.rt, Duration::from_nanos(most.min(LONG_REST)));
    }
}
