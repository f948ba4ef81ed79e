// What the timer asks.
ghost use Rattle.vm_host.specs.Telling.{Gives, Lasts};

/// A clock. It never fails, so it has no count of faults.
pub trait Clock: Drop {
    ghost use Rattle.vm_host.specs.Telling.{ClockKnown};

    ghost known: { Self → ClockKnown };

    /// A moment, in nanoseconds since a moment of the clock's own. It may be less than the one before.
    fn now(&mut self) -> u64
        ensures { Gives (known self.old) result (known self.new) };

    /// Lets some time pass, where nothing can run: this many nanoseconds at most, and less where something may have come
    /// from outside.
    fn rest(&mut self, most: u64)
        ensures { Lasts (known self.old) (known self.new) };
}
