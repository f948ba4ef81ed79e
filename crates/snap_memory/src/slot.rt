// One slot of a header.
ghost use Rattle.std.specs.Prelude.{◌≡◌, replicate};
ghost use Rattle.std.specs.List.{list_all};
ghost use Rattle.file_format.specs.Kinds.{times};
ghost use Rattle.file_format.specs.Reading.{Takes};
ghost use Rattle.snap_memory.specs.Slots.{slot, is_zero};

use file_format::{Input, ReadError, Stored, read_into, read_zeros, write_zeros};
use std::alloc::{AllocError, Global};
use vm_types::Identity;

/// A snapshot that is merged into the file, or is being merged.
#[derive(Clone, Copy, Drop)]
pub struct Slot {
    pub identity: Identity,
    /// The slot counts where this is 1.
    pub gate: u8,
}

impl Slot {
    /// A slot of zeros.
    pub const FREE: Slot = Slot {
        identity: Identity {
            lineage: 0,
            number: 0,
        },
        gate: 0,
    };
}

#[tactic(auto, unfolding(crate::specs::Slots::slot))]
impl Stored for Slot {
    ghost format = { slot };

    fn write(&self, out: &mut Vec<u8>) -> Result<(), AllocError> {
        self.identity.write(out)?;
        self.gate.write(out)?;
        write_zeros(15, out)?;
        Ok(())
    }

    fn read(alloc: Global, input: &mut Input) -> Result<Slot, ReadError> {
        let (identity, gate) = Stored::read(alloc, input)?;
        read_zeros(15, input)?;
        Ok(Slot { identity, gate })
    }
}

/// So many slots of zeros.
pub fn free_slots<const N: usize>() -> [Slot; N]
    ensures { result ≡ replicate N (record { identity = record { lineage = 0; number = 0 }; gate = 0 }) }
{
    [Slot::FREE; N]
}

/// Takes so many slots from the front.
pub fn read_slots<const N: usize>(alloc: Global, input: &mut Input) -> Result<[Slot; N], ReadError>
    ensures { Takes (times N slot) input.old input.new result }
{
    let mut slots = free_slots();
    read_into(alloc, &mut slots, input)?;
    Ok(slots)
}

/// Whether all bytes of the slot are zeros.
fn is_zero(slot: &Slot) -> bool
    ensures { result ≡ is_zero slot.now }
{
    slot.identity.lineage == 0 && slot.identity.number == 0 && slot.gate == 0
}

/// Whether all bytes of these slots are zeros.
pub fn are_zero(slots: &[Slot]) -> bool
    ensures { result ≡ list_all is_zero slots.now }
{
    slots.iter().all(is_zero)
}
