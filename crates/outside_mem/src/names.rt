// The names of the host's objects that devices have.
ghost use Rattle.std.specs.Prelude.{◌≡◌};
ghost use Rattle.outside_mem.specs.Devices.{names_of};
ghost use Rattle.vm_host.specs.declared.attached.Attached.TheVariants as attached;
ghost use Rattle.vm_host.specs.Devices.{Attaches, IsOf};

use std::alloc::Global;
use std::array::from_fn;
use vm_host::Attached;
use vm_types::TextList;

/// The host's object that each device has, by the device's number. Only the names take memory: where there is none for one,
/// the device's object is known to have a name and no more.
#[derive(Drop)]
pub(crate) struct Names {
    alloc: Global,
    pub(crate) each: [Attached; 256],
}

impl Names {
    // None was attached.
    pub(crate) fn new(alloc: Global) -> Names
        ensures { names_of result ≡ λ _. attached.Nothing }
    {
        Names {
            alloc,
            each: from_fn(|_| Attached::Nothing),
        }
    }

    pub(crate) fn attach(&mut self, device: u8, name: &str)
        ensures { Attaches device name.now (names_of self.old) (names_of self.new) }
    {
        self.each[device as usize] = named(self.alloc, name);
    }

    pub(crate) fn at(&self, device: u8) -> &Attached
        ensures { result.now ≡ names_of self.now device }
    {
        &self.each[device as usize]
    }
}

// The object of this name.
pub(crate) fn named(alloc: Global, name: &str) -> Attached
    ensures { IsOf name.now result }
{
    match TextList::copy_of(alloc, name) {
        Ok(name) => Attached::Named(name),
        Err(_) => Attached::Unkept,
    }
}
