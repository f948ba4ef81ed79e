// What entropy devices ask.
ghost use Rattle.vm_host.specs.Giving.{GivesGuest};
ghost use Rattle.vm_outside.specs.Known.{Called, Tells};

use vm_outside::Failed;

/// Words of 64 random bits for the entropy devices of a guest.
pub trait GuestWords: Drop {
    ghost use Rattle.vm_host.specs.Giving.{GuestWordsKnown};

    ghost known: { Self → GuestWordsKnown };

    /// The next word for the device.
    fn word(&mut self, device: u8) -> Result<u64, Failed>
        ensures gives { Tells (known self.old).health → GivesGuest device (known self.old).left result (known self.new).left }
        ensures called { Called (known self.old).health (known self.new).health result };
}
