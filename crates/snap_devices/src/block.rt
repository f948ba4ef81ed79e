// A block device.
ghost use Rattle.std.specs.Prelude.{◌≡◌, ◌<◌, ◌++◌, OnOk};
ghost use Rattle.file_format.specs.Ends.{TakesAll};
ghost use Rattle.file_format.specs.Reading.{Takes};
ghost use Rattle.snap_devices.specs.Blocks as blocks;
ghost use Rattle.snap_devices.specs.Blocks.{block, block_data, block_fields, due_at, due_code};
ghost use Rattle.snap_devices.specs.Forms.{block_filed, walk_filed};
ghost use Rattle.snap_devices.specs.Queues.{maybe_walk};

use crate::file::{FileBlock, FileData, FileDue, FilePhase};
use crate::form::{block_of, data_filed, more_filed, phase_filed};
use crate::limits::{read_more, write_more};
use crate::mark::{accepted_at, accepted_code};
use crate::queue::{read_begun, read_collect, read_parts, write_collect, write_parts, write_walk};
use crate::saved::Saved;
use block_device::{Block, BlockKind};
use dev_core::Scatter;
use file_format::{Input, ReadError, Stored};
use queue_device::{Phase, QueueRounds};
use std::alloc::{AllocError, Global};
use vm_types::Accepted;
use vq_split::Queue;

fn due_code(due: FileDue) -> u8
    ensures code { result ≡ due_code due }
    ensures few { result < 3 }
{
    match due {
        FileDue::Look => 0,
        FileDue::Walk => 1,
        FileDue::Idle => 2,
    }
}

fn due_at(code: u8) -> Option<FileDue>
    ensures { result ≡ due_at code }
{
    match code {
        0 => Some(FileDue::Look),
        1 => Some(FileDue::Walk),
        2 => Some(FileDue::Idle),
        _ => None,
    }
}

// What is due, with what was accepted of the queue that is worked on.
#[tactic(auto, unfolding(crate::specs::Blocks::due, crate::specs::Marks::marked, file_format::specs::Kinds::byte), using(crate::specs::Blocks::at_due))]
fn write_due(due: FileDue, accepted: Accepted, out: &mut Vec<u8>) -> Result<(), AllocError>
    ensures fits { OnOk result (blocks.due.Fits (due, accepted)) }
    ensures bytes { OnOk result (out.new.items ≡ blocks.due.puts (due, accepted) out.old.items) }
{
    (due_code(due) + 4 * accepted_code(accepted)).write(out)?;
    Ok(())
}

#[tactic(auto, unfolding(crate::specs::Blocks::due, crate::specs::Marks::marked, file_format::specs::Kinds::byte))]
fn read_due(alloc: Global, input: &mut Input) -> Result<(FileDue, Accepted), ReadError>
    ensures { Takes blocks.due input.old input.new result }
{
    let code = u8::read(alloc, input)?;
    match due_at(code % 4) {
        None => Err(ReadError::Bad),
        Some(due) => match accepted_at(code / 4) {
            None => Err(ReadError::Bad),
            Some(accepted) => Ok((due, accepted)),
        },
    }
}

#[tactic(auto, unfolding(crate::specs::Blocks::block_data, crate::specs::Queues::registers))]
fn write_data(it: &FileData, out: &mut Vec<u8>) -> Result<(), AllocError>
    ensures fits { OnOk result (block_data.Fits it.now) }
    ensures bytes { OnOk result (out.new.items ≡ block_data.puts it.now out.old.items) }
{
    it.sectors.write(out)?;
    it.queue.descriptors.write(out)?;
    it.queue.available.write(out)?;
    it.queue.used.write(out)?;
    it.queue.size.write(out)?;
    it.queue.pages.write(out)?;
    it.drive_id.write(out)?;
    it.next.write(out)?;
    it.used.write(out)?;
    it.port.write(out)?;
    it.is_read_only.write(out)?;
    it.is_kicked.write(out)?;
    it.has_finished.write(out)?;
    write_due(it.due, it.queue.accepted, out)?;
    Ok(())
}

#[tactic(auto, unfolding(crate::specs::Blocks::block_data, crate::specs::Queues::registers))]
fn read_data(alloc: Global, input: &mut Input) -> Result<FileData, ReadError>
    ensures { Takes block_data input.old input.new result }
{
    let (sectors, (descriptors, (available, (used_ring, (size, pages))))) = Stored::read(
        alloc, input,
    )?;
    let drive_id = Stored::read(alloc, input)?;
    let (next, used) = Stored::read(alloc, input)?;
    let (port, (is_read_only, (is_kicked, has_finished))) = Stored::read(alloc, input)?;
    let (due, accepted) = read_due(alloc, input)?;
    let queue = Queue {
        descriptors,
        available,
        used: used_ring,
        size,
        pages,
        accepted,
    };
    Ok(FileData {
        sectors,
        queue,
        drive_id,
        next,
        used,
        port,
        is_read_only,
        is_kicked,
        has_finished,
        due,
    })
}

#[tactic(auto, unfolding(crate::specs::Queues::maybe_walk, crate::specs::Marks::maybe, file_format::specs::Kinds::byte), using(crate::specs::Marks::at_code))]
fn write_begun(phase: &Phase, out: &mut Vec<u8>) -> Result<(), AllocError>
    ensures fits { OnOk result (maybe_walk.Fits (walk_filed phase.now)) }
    ensures bytes { OnOk result (out.new.items ≡ maybe_walk.puts (walk_filed phase.now) out.old.items) }
{
    match phase {
        Phase::Walk { which: _, walk } => {
            (1 + accepted_code(walk.queue().accepted)).write(out)?;
            write_walk(walk, out)?;
        }
        Phase::Between
        | Phase::Question
        | Phase::Take { .. }
        | Phase::Serve { .. }
        | Phase::Return { .. }
        | Phase::Break { .. } => 0u8.write(out)?,
    }
    Ok(())
}

#[tactic(auto, unfolding(crate::specs::Blocks::block_fields))]
fn write_fields(b: &QueueRounds<BlockKind>, out: &mut Vec<u8>) -> Result<(), AllocError>
    ensures fits { OnOk result (block_fields.Fits (block_filed b.now)) }
    ensures bytes { OnOk result (out.new.items ≡ block_fields.puts (block_filed b.now) out.old.items) }
{
    let work = &b.kind.work;
    write_data(&data_filed(b), out)?;
    Saved {
        value: phase_filed(&b.phase, work),
    }
    .write(out)?;
    write_begun(&b.phase, out)?;
    write_collect(work.from(), out)?;
    write_parts(work.to().parts(), out)?;
    Ok(())
}

#[tactic(auto, unfolding(crate::specs::Blocks::block_fields))]
fn read_fields(alloc: Global, input: &mut Input) -> Result<FileBlock, ReadError>
    ensures { Takes block_fields input.old input.new result }
{
    let facts = read_data(alloc, input)?;
    let phase: Saved<FilePhase> = Stored::read(alloc, input)?;
    let walk = read_begun(alloc, input)?;
    let from = read_collect(alloc, input)?;
    let to = read_parts(alloc, input)?;
    Ok(FileBlock {
        facts,
        phase: phase.value,
        walk,
        from,
        to: Scatter::new(to),
    })
}

/// Puts a block device at the end.
pub fn write_block(b: &Block, out: &mut Vec<u8>) -> Result<(), AllocError>
    ensures fits { OnOk result (block.Fits b.now) }
    ensures bytes { OnOk result (out.new.items ≡ out.old.items ++ block.bytes b.now) }
{
    let state = b.state();
    write_fields(state, out)?;
    write_more(&more_filed(state), out)?;
    Ok(())
}

/// The block device that all the bytes are that are left.
#[tactic(auto, using(crate::proofs::Reading::fields_bad, crate::proofs::Reading::end_bad))]
pub fn read_block(alloc: Global, input: &mut Input) -> Result<Block, ReadError>
    ensures { TakesAll block input.old result }
{
    let file = match read_fields(alloc, input) {
        Ok(file) => file,
        Err(error) => return Err(error),
    };
    let more = match read_more(alloc, input) {
        Ok(more) => more,
        Err(error) => return Err(error),
    };
    match block_of(file, more) {
        Some(b) => Ok(b),
        None => Err(ReadError::Bad),
    }
}
