// An entropy device.
ghost use Rattle.std.specs.Prelude.{◌≡◌, OnOk};
ghost use Rattle.file_format.specs.Ends.{TakesAll, whole};
ghost use Rattle.file_format.specs.Reading.{Takes};
ghost use Rattle.snap_devices.specs.Entropies.{entropy, entropy_fields, kind, stage, stage_code};

use crate::limits::{read_limits, write_limits};
use crate::place::{read_place, write_place};
use crate::queue::{read_held, read_parts, write_held, write_parts};
use crate::rounds::{read_rounds, write_rounds};
use dev_core::Scatter;
use entropy_device::{EntropyDevice, EntropyKind, Stage};
use file_format::{Input, ReadError, Stored};
use queue_device::{QueueRounds, Spill};
use std::alloc::{AllocError, Global};

fn stage_code(stage: &Stage) -> u8
    ensures { result ≡ stage_code stage.now }
{
    match stage {
        Stage::Rest => 0,
        Stage::Draw(_, _, _) => 1,
        Stage::Write(_, _, _) => 2,
    }
}

#[tactic(auto, unfolding(crate::specs::Entropies::stage, file_format::specs::Kinds::byte))]
fn write_stage(it: &Stage, out: &mut Vec<u8>) -> Result<(), AllocError>
    ensures fits { OnOk result (stage.Fits it.now) }
    ensures bytes { OnOk result (out.new.items ≡ stage.puts it.now out.old.items) }
{
    stage_code(it).write(out)?;
    match it {
        Stage::Rest => {}
        Stage::Draw(length, index, to) => {
            length.write(out)?;
            index.write(out)?;
            write_parts(to.parts(), out)?;
        }
        Stage::Write(length, index, spill) => {
            length.write(out)?;
            index.write(out)?;
            write_parts(spill.to.parts(), out)?;
            write_held(spill.held.as_slice(), out)?;
        }
    }
    Ok(())
}

#[tactic(auto, unfolding(crate::specs::Entropies::stage, file_format::specs::Kinds::byte))]
fn read_stage(alloc: Global, input: &mut Input) -> Result<Stage, ReadError>
    ensures { Takes stage input.old input.new result }
{
    let stage = match u8::read(alloc, input)? {
        0 => Stage::Rest,
        1 => {
            let length = u32::read(alloc, input)?;
            let index = u32::read(alloc, input)?;
            let to = read_parts(alloc, input)?;
            Stage::Draw(length, index, Scatter::new(to))
        }
        2 => {
            let length = u32::read(alloc, input)?;
            let index = u32::read(alloc, input)?;
            let to = read_parts(alloc, input)?;
            let held = read_held(alloc, input)?;
            Stage::Write(length, index, Spill::new(held, to))
        }
        _ => return Err(ReadError::Bad),
    };
    Ok(stage)
}

#[tactic(auto, unfolding(crate::specs::Entropies::kind, crate::specs::Entropies::kind_fields))]
fn write_kind(it: &EntropyKind, out: &mut Vec<u8>) -> Result<(), AllocError>
    ensures fits { OnOk result (kind.Fits it.now) }
    ensures bytes { OnOk result (out.new.items ≡ kind.puts it.now out.old.items) }
{
    write_limits(it.limits(), out)?;
    write_stage(it.stage(), out)?;
    Ok(())
}

#[tactic(auto, unfolding(crate::specs::Entropies::kind, crate::specs::Entropies::kind_fields))]
fn read_kind(alloc: Global, input: &mut Input) -> Result<EntropyKind, ReadError>
    ensures { Takes kind input.old input.new result }
{
    let limits = read_limits(alloc, input)?;
    let stage = read_stage(alloc, input)?;
    match EntropyKind::from_parts(limits, stage) {
        Some(kind) => Ok(kind),
        None => Err(ReadError::Bad),
    }
}

#[tactic(auto, unfolding(crate::specs::Entropies::entropy_fields))]
fn write_fields(it: &QueueRounds<EntropyKind>, out: &mut Vec<u8>) -> Result<(), AllocError>
    ensures fits { OnOk result (entropy_fields.Fits it.now) }
    ensures bytes { OnOk result (out.new.items ≡ entropy_fields.puts it.now out.old.items) }
{
    write_rounds(&it.rounds, out)?;
    write_place(&it.phase, out)?;
    write_kind(&it.kind, out)?;
    Ok(())
}

#[tactic(auto, unfolding(crate::specs::Entropies::entropy_fields))]
fn read_fields(alloc: Global, input: &mut Input) -> Result<QueueRounds<EntropyKind>, ReadError>
    ensures { Takes entropy_fields input.old input.new result }
{
    let rounds = read_rounds(alloc, input)?;
    let phase = read_place(alloc, input)?;
    let kind = read_kind(alloc, input)?;
    Ok(QueueRounds {
        rounds,
        kind,
        phase,
    })
}

/// Puts an entropy device at the end.
#[tactic(auto, unfolding(crate::specs::Entropies::entropy))]
pub fn write_entropy(it: &EntropyDevice, out: &mut Vec<u8>) -> Result<(), AllocError>
    ensures fits { OnOk result (entropy.Fits it.now) }
    ensures bytes { OnOk result (out.new.items ≡ entropy.puts it.now out.old.items) }
{
    write_fields(it.state(), out)?;
    Ok(())
}

#[tactic(auto, unfolding(crate::specs::Entropies::entropy))]
fn entropy_at(alloc: Global, input: &mut Input) -> Result<EntropyDevice, ReadError>
    ensures { Takes entropy input.old input.new result }
{
    let state = read_fields(alloc, input)?;
    match EntropyDevice::from_state(state) {
        Some(it) => Ok(it),
        None => Err(ReadError::Bad),
    }
}

/// The entropy device that all the bytes are that are left.
pub fn read_entropy(alloc: Global, input: &mut Input) -> Result<EntropyDevice, ReadError>
    ensures { TakesAll (whole entropy) input.old result }
{
    let it = entropy_at(alloc, input)?;
    if input.is_empty() {
        Ok(it)
    } else {
        Err(ReadError::Bad)
    }
}
