// Where a device with queues is.
ghost use Rattle.std.specs.Prelude.{◌≡◌, OnOk};
ghost use Rattle.file_format.specs.Reading.{Takes};
ghost use Rattle.snap_devices.specs.Places.{hand, place, place_code, walked};

use crate::mark::{queue_at, queue_code};
use crate::queue::{read_registers, read_walk, write_registers, write_walk};
use crate::saved::Saved;
use dev_core::{BreakStage, ReturnStage};
use file_format::{Input, ReadError, Stored};
use queue_device::{InHand, Phase, SoundQueue, Which};
use std::alloc::{AllocError, Global};
use vq_split::ChainWalk;

#[tactic(auto, unfolding(crate::specs::Places::hand, crate::specs::Places::hand_by, crate::specs::Places::hand_fields, crate::specs::Marks::marked, file_format::specs::Kinds::byte), using(vq_split::proofs::Kept::test_of_sound, crate::specs::Marks::at_queue))]
impl Stored for Saved<InHand> {
    ghost format = { hand };

    fn write(&self, out: &mut Vec<u8>) -> Result<(), AllocError> {
        let queue = self.value.queue.fields();
        queue_code(self.value.which, queue.accepted).write(out)?;
        write_registers(&queue, out)?;
        self.value.head.write(out)?;
        Ok(())
    }

    fn read(alloc: Global, input: &mut Input) -> Result<Saved<InHand>, ReadError> {
        let Some((which, accepted)) = queue_at(u8::read(alloc, input)?) else {
            return Err(ReadError::Bad);
        };
        let queue = read_registers(alloc, accepted, input)?;
        let head = u16::read(alloc, input)?;
        match SoundQueue::from_fields(queue) {
            Some(queue) => Ok(Saved {
                value: InHand { which, queue, head },
            }),
            None => Err(ReadError::Bad),
        }
    }
}

#[tactic(auto, unfolding(crate::specs::Places::walked, crate::specs::Places::walked_by, crate::specs::Marks::marked, file_format::specs::Kinds::byte), using(crate::specs::Marks::at_queue))]
fn write_walked(which: Which, walk: &ChainWalk, out: &mut Vec<u8>) -> Result<(), AllocError>
    ensures fits { OnOk result (walked.Fits (which, walk.now)) }
    ensures bytes { OnOk result (out.new.items ≡ walked.puts (which, walk.now) out.old.items) }
{
    queue_code(which, walk.queue().accepted).write(out)?;
    write_walk(walk, out)?;
    Ok(())
}

#[tactic(auto, unfolding(crate::specs::Places::walked, crate::specs::Places::walked_by, crate::specs::Marks::marked, file_format::specs::Kinds::byte))]
fn read_walked(alloc: Global, input: &mut Input) -> Result<(Which, ChainWalk), ReadError>
    ensures { Takes walked input.old input.new result }
{
    let Some((which, accepted)) = queue_at(u8::read(alloc, input)?) else {
        return Err(ReadError::Bad);
    };
    let walk = read_walk(alloc, accepted, input)?;
    Ok((which, walk))
}

fn place_code(place: &Phase) -> u8
    ensures { result ≡ place_code place.now }
{
    match place {
        Phase::Between => 0,
        Phase::Question => 1,
        Phase::Walk { .. } => 2,
        Phase::Take { .. } => 3,
        Phase::Serve { .. } => 4,
        Phase::Return { .. } => 5,
        Phase::Break { .. } => 6,
    }
}

/// Puts at the end where a device is.
#[tactic(auto, unfolding(crate::specs::Places::place, file_format::specs::Kinds::byte))]
pub fn write_place(it: &Phase, out: &mut Vec<u8>) -> Result<(), AllocError>
    ensures fits { OnOk result (place.Fits it.now) }
    ensures bytes { OnOk result (out.new.items ≡ place.puts it.now out.old.items) }
{
    place_code(it).write(out)?;
    match it {
        Phase::Between | Phase::Question => {}
        Phase::Walk { which, walk } => write_walked(*which, walk, out)?,
        Phase::Take { chain } => Saved { value: *chain }.write(out)?,
        Phase::Serve { chain } => Saved { value: *chain }.write(out)?,
        Phase::Return { chain, len, stage } => {
            len.write(out)?;
            Saved { value: *stage }.write(out)?;
            Saved { value: *chain }.write(out)?;
        }
        Phase::Break { which, stage } => {
            Saved { value: *which }.write(out)?;
            Saved { value: *stage }.write(out)?;
        }
    }
    Ok(())
}

/// Takes from the front where a device is.
#[tactic(auto, unfolding(crate::specs::Places::place, file_format::specs::Kinds::byte))]
pub fn read_place(alloc: Global, input: &mut Input) -> Result<Phase, ReadError>
    ensures { Takes place input.old input.new result }
{
    let place = match u8::read(alloc, input)? {
        0 => Phase::Between,
        1 => Phase::Question,
        2 => {
            let (which, walk) = read_walked(alloc, input)?;
            Phase::Walk { which, walk }
        }
        3 => {
            let chain: Saved<InHand> = Stored::read(alloc, input)?;
            Phase::Take { chain: chain.value }
        }
        4 => {
            let chain: Saved<InHand> = Stored::read(alloc, input)?;
            Phase::Serve { chain: chain.value }
        }
        5 => {
            let (len, (stage, chain)): (u32, (Saved<ReturnStage>, Saved<InHand>)) = Stored::read(
                alloc, input,
            )?;
            Phase::Return {
                chain: chain.value,
                len,
                stage: stage.value,
            }
        }
        6 => {
            let (which, stage): (Saved<Which>, Saved<BreakStage>) = Stored::read(alloc, input)?;
            Phase::Break {
                which: which.value,
                stage: stage.value,
            }
        }
        _ => return Err(ReadError::Bad),
    };
    Ok(place)
}
