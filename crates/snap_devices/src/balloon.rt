// A balloon.
ghost use Rattle.std.specs.Prelude.{◌≡◌, OnOk};
ghost use Rattle.file_format.specs.Ends.{TakesAll, whole};
ghost use Rattle.file_format.specs.Reading.{Takes};
ghost use Rattle.snap_devices.specs.Balloons.{balloon, balloon_fields, kind, stage, stage_code, statistics};

use crate::place::{read_place, write_place};
use crate::queue::{read_collect, write_collect};
use crate::rounds::{read_rounds, write_rounds};
use crate::saved::Saved;
use balloon_device::{BalloonDevice, BalloonKind, Stage, Statistics};
use file_format::{Input, ReadError, Stored, read_into, write_items};
use queue_device::QueueRounds;
use std::alloc::{AllocError, Global};

#[tactic(auto, unfolding(crate::specs::Balloons::statistics, file_format::specs::Kinds::times))]
impl Stored for Saved<Statistics> {
    ghost format = { statistics };

    fn write(&self, out: &mut Vec<u8>) -> Result<(), AllocError> {
        write_items(&self.value.values, out)?;
        Ok(())
    }

    fn read(alloc: Global, input: &mut Input) -> Result<Saved<Statistics>, ReadError> {
        let mut values = [None; 10];
        read_into(alloc, &mut values, input)?;
        Ok(Saved {
            value: Statistics { values },
        })
    }
}

fn stage_code(stage: &Stage) -> u8
    ensures { result ≡ stage_code stage.now }
{
    match stage {
        Stage::Rest => 0,
        Stage::List { .. } => 1,
        Stage::Zeros { .. } => 2,
        Stage::Tags { .. } => 3,
    }
}

#[tactic(auto, unfolding(crate::specs::Balloons::stage, file_format::specs::Kinds::byte))]
fn write_stage(it: &Stage, out: &mut Vec<u8>) -> Result<(), AllocError>
    ensures fits { OnOk result (stage.Fits it.now) }
    ensures bytes { OnOk result (out.new.items ≡ stage.puts it.now out.old.items) }
{
    stage_code(it).write(out)?;
    match it {
        Stage::Rest => {}
        Stage::List { list, pages } => {
            pages.write(out)?;
            write_collect(list, out)?;
        }
        Stage::Zeros {
            list,
            pages,
            left,
            at,
        } => {
            pages.write(out)?;
            left.write(out)?;
            at.write(out)?;
            write_collect(list, out)?;
        }
        Stage::Tags { from, so_far } => {
            Saved { value: *so_far }.write(out)?;
            write_collect(from, out)?;
        }
    }
    Ok(())
}

#[tactic(auto, unfolding(crate::specs::Balloons::stage, file_format::specs::Kinds::byte))]
fn read_stage(alloc: Global, input: &mut Input) -> Result<Stage, ReadError>
    ensures { Takes stage input.old input.new result }
{
    let stage = match u8::read(alloc, input)? {
        0 => Stage::Rest,
        1 => {
            let pages = u32::read(alloc, input)?;
            let list = read_collect(alloc, input)?;
            Stage::List { list, pages }
        }
        2 => {
            let pages = u32::read(alloc, input)?;
            let left = u32::read(alloc, input)?;
            let at = u64::read(alloc, input)?;
            let list = read_collect(alloc, input)?;
            Stage::Zeros {
                list,
                pages,
                left,
                at,
            }
        }
        3 => {
            let so_far: Saved<Statistics> = Stored::read(alloc, input)?;
            let from = read_collect(alloc, input)?;
            Stage::Tags {
                from,
                so_far: so_far.value,
            }
        }
        _ => return Err(ReadError::Bad),
    };
    Ok(stage)
}

#[tactic(auto, unfolding(crate::specs::Balloons::kind, crate::specs::Balloons::kind_fields))]
fn write_kind(it: &BalloonKind, out: &mut Vec<u8>) -> Result<(), AllocError>
    ensures fits { OnOk result (kind.Fits it.now) }
    ensures bytes { OnOk result (out.new.items ≡ kind.puts it.now out.old.items) }
{
    it.interval().write(out)?;
    it.last().write(out)?;
    Saved {
        value: it.statistics(),
    }
    .write(out)?;
    write_stage(it.stage(), out)?;
    Ok(())
}

#[tactic(auto, unfolding(crate::specs::Balloons::kind, crate::specs::Balloons::kind_fields))]
fn read_kind(alloc: Global, input: &mut Input) -> Result<BalloonKind, ReadError>
    ensures { Takes kind input.old input.new result }
{
    let (interval, (last, statistics)): (u16, (u64, Saved<Statistics>)) = Stored::read(
        alloc, input,
    )?;
    let stage = read_stage(alloc, input)?;
    match BalloonKind::from_parts(interval, last, statistics.value, stage) {
        Some(kind) => Ok(kind),
        None => Err(ReadError::Bad),
    }
}

#[tactic(auto, unfolding(crate::specs::Balloons::balloon_fields))]
fn write_fields(it: &QueueRounds<BalloonKind>, out: &mut Vec<u8>) -> Result<(), AllocError>
    ensures fits { OnOk result (balloon_fields.Fits it.now) }
    ensures bytes { OnOk result (out.new.items ≡ balloon_fields.puts it.now out.old.items) }
{
    write_rounds(&it.rounds, out)?;
    write_place(&it.phase, out)?;
    write_kind(&it.kind, out)?;
    Ok(())
}

#[tactic(auto, unfolding(crate::specs::Balloons::balloon_fields))]
fn read_fields(alloc: Global, input: &mut Input) -> Result<QueueRounds<BalloonKind>, ReadError>
    ensures { Takes balloon_fields input.old input.new result }
{
    let rounds = read_rounds(alloc, input)?;
    let phase = read_place(alloc, input)?;
    let kind = read_kind(alloc, input)?;
    Ok(QueueRounds {
        rounds,
        kind,
        phase,
    })
}

/// Puts a balloon at the end.
#[tactic(auto, unfolding(crate::specs::Balloons::balloon))]
pub fn write_balloon(it: &BalloonDevice, out: &mut Vec<u8>) -> Result<(), AllocError>
    ensures fits { OnOk result (balloon.Fits it.now) }
    ensures bytes { OnOk result (out.new.items ≡ balloon.puts it.now out.old.items) }
{
    write_fields(it.state(), out)?;
    Ok(())
}

#[tactic(auto, unfolding(crate::specs::Balloons::balloon))]
fn balloon_at(alloc: Global, input: &mut Input) -> Result<BalloonDevice, ReadError>
    ensures { Takes balloon input.old input.new result }
{
    let state = read_fields(alloc, input)?;
    match BalloonDevice::from_state(state) {
        Some(it) => Ok(it),
        None => Err(ReadError::Bad),
    }
}

/// The balloon that all the bytes are that are left.
pub fn read_balloon(alloc: Global, input: &mut Input) -> Result<BalloonDevice, ReadError>
    ensures { TakesAll (whole balloon) input.old result }
{
    let it = balloon_at(alloc, input)?;
    if input.is_empty() {
        Ok(it)
    } else {
        Err(ReadError::Bad)
    }
}
