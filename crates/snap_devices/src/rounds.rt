// The rounds of a device with queues.
ghost use Rattle.std.specs.Prelude.{◌≡◌, OnOk};
ghost use Rattle.file_format.specs.Reading.{Takes};
ghost use Rattle.snap_devices.specs.Rounds.{lane, next_code, next_due, rounds, which};

use crate::limits::{read_waiting, write_waiting};
use crate::mark::which_code;
use crate::queue::{read_queue, write_queue};
use crate::saved::Saved;
use file_format::{Input, ReadError, Stored};
use queue_device::{Due, Lane, Rounds, Which};
use std::alloc::{AllocError, Global};

#[tactic(auto, unfolding(crate::specs::Rounds::which, file_format::specs::Kinds::byte))]
impl Stored for Saved<Which> {
    ghost format = { which };

    fn write(&self, out: &mut Vec<u8>) -> Result<(), AllocError> {
        which_code(self.value).write(out)?;
        Ok(())
    }

    fn read(alloc: Global, input: &mut Input) -> Result<Saved<Which>, ReadError> {
        let value = match u8::read(alloc, input)? {
            0 => Which::First,
            1 => Which::Second,
            2 => Which::Third,
            _ => return Err(ReadError::Bad),
        };
        Ok(Saved { value })
    }
}

fn next_code(due: Due) -> u8
    ensures { result ≡ next_code due }
{
    match due {
        Due::Look => 0,
        Due::Question => 1,
        Due::Lane(_) => 2,
        Due::Wait => 3,
    }
}

#[tactic(auto, unfolding(crate::specs::Rounds::next_due, file_format::specs::Kinds::byte))]
impl Stored for Saved<Due> {
    ghost format = { next_due };

    fn write(&self, out: &mut Vec<u8>) -> Result<(), AllocError> {
        next_code(self.value).write(out)?;
        match self.value {
            Due::Look | Due::Question | Due::Wait => {}
            Due::Lane(which) => Saved { value: which }.write(out)?,
        }
        Ok(())
    }

    fn read(alloc: Global, input: &mut Input) -> Result<Saved<Due>, ReadError> {
        let value = match u8::read(alloc, input)? {
            0 => Due::Look,
            1 => Due::Question,
            2 => {
                let which: Saved<Which> = Stored::read(alloc, input)?;
                Due::Lane(which.value)
            }
            3 => Due::Wait,
            _ => return Err(ReadError::Bad),
        };
        Ok(Saved { value })
    }
}

#[tactic(auto, unfolding(crate::specs::Rounds::lane))]
fn write_lane(it: &Lane, out: &mut Vec<u8>) -> Result<(), AllocError>
    ensures fits { OnOk result (lane.Fits it.now) }
    ensures bytes { OnOk result (out.new.items ≡ lane.puts it.now out.old.items) }
{
    it.next.write(out)?;
    it.used.write(out)?;
    it.is_kicked.write(out)?;
    write_queue(it.queue, out)?;
    write_waiting(&it.waiting, out)?;
    Ok(())
}

#[tactic(auto, unfolding(crate::specs::Rounds::lane))]
fn read_lane(alloc: Global, input: &mut Input) -> Result<Lane, ReadError>
    ensures { Takes lane input.old input.new result }
{
    let (next, (used, is_kicked)) = Stored::read(alloc, input)?;
    let queue = read_queue(alloc, input)?;
    let waiting = read_waiting(alloc, input)?;
    Ok(Lane {
        queue,
        waiting,
        next,
        used,
        is_kicked,
    })
}

/// Puts rounds at the end.
#[tactic(auto, unfolding(crate::specs::Rounds::rounds))]
pub fn write_rounds(it: &Rounds, out: &mut Vec<u8>) -> Result<(), AllocError>
    ensures fits { OnOk result (rounds.Fits it.now) }
    ensures bytes { OnOk result (out.new.items ≡ rounds.puts it.now out.old.items) }
{
    it.pages.write(out)?;
    it.port.write(out)?;
    Saved { value: it.due }.write(out)?;
    it.is_busy.write(out)?;
    write_lane(&it.first, out)?;
    write_lane(&it.second, out)?;
    write_lane(&it.third, out)?;
    Ok(())
}

/// Takes rounds from the front.
#[tactic(auto, unfolding(crate::specs::Rounds::rounds))]
pub fn read_rounds(alloc: Global, input: &mut Input) -> Result<Rounds, ReadError>
    ensures { Takes rounds input.old input.new result }
{
    let (pages, (port, (due, is_busy))): (u32, (u8, (Saved<Due>, bool))) = Stored::read(
        alloc, input,
    )?;
    let first = read_lane(alloc, input)?;
    let second = read_lane(alloc, input)?;
    let third = read_lane(alloc, input)?;
    Ok(Rounds {
        first,
        second,
        third,
        pages,
        port,
        due: due.value,
        is_busy,
    })
}
