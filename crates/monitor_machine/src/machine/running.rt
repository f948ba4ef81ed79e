// The guest of a machine, taken out for a slice.
ghost use Rattle.std.specs.Prelude.{◌≡◌, IfSome, Some, option_map};
ghost use Rattle.monitor_machine.specs.Running.{resting_world, running_world};
ghost use Rattle.monitor_machine.specs.Ready.{IsReadyLive};

use crate::machine::LiveMachine;
use vm_world::World;

impl LiveMachine {
    /// The guest that runs.
    pub fn running(&self) -> Option<&World>
        ensures { option_map (λ w. w.now) result ≡ running_world self.now.guest self.now.paused }
    {
        if self.paused {
            None
        } else {
            self.guest.as_ref()
        }
    }

    /// Takes out the guest that runs. Until `put_guest` gives one back the machine has none.
    pub fn take_running(&mut self) -> Option<World>
        ensures running { result ≡ running_world self.old.guest self.old.paused }
        ensures left { self.new ≡ record self.old { guest = resting_world self.old.guest self.old.paused } }
        ensures ready { IfSome result (λ world. IsReadyLive (record self.new { guest = Some world })) }
    {
        if self.paused { None } else { self.guest.take() }
    }

    /// This is the guest from now on. The machine is ready with it, as with the one that was taken out and made events.
    pub fn put_guest(&mut self, guest: World)
        requires { IsReadyLive (record self.old { guest = Some guest }) }
        ensures { self.new ≡ record self.old { guest = Some guest } }
    {
        self.guest = Some(guest);
    }
}
