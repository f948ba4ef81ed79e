// A queue, the parts of a chain, and the walk of one.
ghost use Rattle.std.specs.Prelude.{◌≡◌, ◌≤◌, IfSome, IfNone, OnOk, length, true, false};
ghost use Rattle.std.specs.List.{AllByRecursion};
ghost use Rattle.file_format.specs.Readers.{put_all};
ghost use Rattle.file_format.specs.Reading.{Takes};
ghost use Rattle.snap_devices.specs.Queues.{are_few, collect, held, maybe_queue, maybe_walk, part, parts, piece, queue};
ghost use Rattle.snap_devices.specs.Queues.{stage_code, table, walk, walk_stage};

use crate::mark::{accepted_at, accepted_code};
use crate::saved::Saved;
use dev_core::{Collect, Gather, Held};
use file_format::{Input, Items, ReadError, Stored, write_count};
use std::alloc::{AllocError, Global};
use vm_types::{Accepted, ByteList, Piece};
use vq_split::{ChainWalk, Part, PartList, Queue, Stage, Table};

/// Puts a queue at the end, behind what was accepted of it.
#[tactic(auto, unfolding(crate::specs::Queues::queue, crate::specs::Queues::registers))]
pub fn write_registers(it: &Queue, out: &mut Vec<u8>) -> Result<(), AllocError>
    ensures fits { OnOk result ((queue it.now.accepted).Fits it.now) }
    ensures bytes { OnOk result (out.new.items ≡ (queue it.now.accepted).puts it.now out.old.items) }
{
    it.descriptors.write(out)?;
    it.available.write(out)?;
    it.used.write(out)?;
    it.size.write(out)?;
    it.pages.write(out)?;
    Ok(())
}

/// Takes a queue from the front, of which these were accepted.
#[tactic(auto, unfolding(crate::specs::Queues::queue, crate::specs::Queues::registers))]
pub fn read_registers(
    alloc: Global,
    accepted: Accepted,
    input: &mut Input,
) -> Result<Queue, ReadError>
    ensures { Takes (queue accepted) input.old input.new result }
{
    let (descriptors, (available, (used, (size, pages)))) = Stored::read(alloc, input)?;
    Ok(Queue {
        descriptors,
        available,
        used,
        size,
        pages,
        accepted,
    })
}

/// Puts a queue, if there is one, at the end.
#[tactic(auto, unfolding(crate::specs::Queues::maybe_queue, crate::specs::Marks::maybe, file_format::specs::Kinds::byte), using(crate::specs::Marks::at_code))]
pub fn write_queue(it: Option<Queue>, out: &mut Vec<u8>) -> Result<(), AllocError>
    ensures fits { OnOk result (maybe_queue.Fits it) }
    ensures bytes { OnOk result (out.new.items ≡ maybe_queue.puts it out.old.items) }
{
    match it {
        Some(queue) => {
            (1 + accepted_code(queue.accepted)).write(out)?;
            write_registers(&queue, out)?;
        }
        None => 0u8.write(out)?,
    }
    Ok(())
}

/// Takes it from the front.
#[tactic(auto, unfolding(crate::specs::Queues::maybe_queue, crate::specs::Marks::maybe, file_format::specs::Kinds::byte))]
pub fn read_queue(alloc: Global, input: &mut Input) -> Result<Option<Queue>, ReadError>
    ensures { Takes maybe_queue input.old input.new result }
{
    let code = u8::read(alloc, input)?;
    if code == 0 {
        return Ok(None);
    }
    let Some(accepted) = accepted_at(code - 1) else {
        return Err(ReadError::Bad);
    };
    let queue = read_registers(alloc, accepted, input)?;
    Ok(Some(queue))
}

#[tactic(auto, unfolding(crate::specs::Queues::part))]
impl Stored for Saved<Part> {
    ghost format = { part };

    fn write(&self, out: &mut Vec<u8>) -> Result<(), AllocError> {
        self.value.at.write(out)?;
        self.value.len.write(out)?;
        self.value.writable.write(out)?;
        Ok(())
    }

    fn read(alloc: Global, input: &mut Input) -> Result<Saved<Part>, ReadError> {
        let (at, (len, writable)) = Stored::read(alloc, input)?;
        Ok(Saved {
            value: Part { at, len, writable },
        })
    }
}

// The parts behind their count.
#[tactic(auto, using(file_format::proofs::Loops::writings))]
fn write_items(list: &[Part], out: &mut Vec<u8>) -> Result<(), AllocError>
    ensures fit { OnOk result (AllByRecursion part.Fits list.now) }
    ensures bytes { OnOk result (out.new.items ≡ put_all part.puts list.now out.old.items) }
{
    for item in list {
        Saved { value: *item }.write(out)?;
    }
    Ok(())
}

/// Puts parts, of which there are 256 at most, at the end.
#[tactic(auto, unfolding(crate::specs::Queues::parts, file_format::specs::Kinds::list_of))]
pub fn write_parts(list: &[Part], out: &mut Vec<u8>) -> Result<(), AllocError>
    requires { length list.now ≤ 256 }
    ensures fits { OnOk result (parts.Fits list.now) }
    ensures bytes { OnOk result (out.new.items ≡ parts.puts list.now out.old.items) }
{
    write_count(list.len(), out)?;
    write_items(list, out)?;
    Ok(())
}

fn list_of(items: &[Saved<Part>]) -> Option<PartList>
    ensures some { IfSome result (λ list. (list ≡ items.now) × (are_few items.now ≡ true)) }
    ensures none { IfNone result (are_few items.now ≡ false) }
{
    if items.len() > 256 {
        return None;
    }
    let mut list = PartList::new();
    for item in items {
        list.push(item.value);
    }
    Some(list)
}

/// Takes parts from the front, of which there are 256 at most.
#[tactic(auto, unfolding(crate::specs::Queues::parts))]
pub fn read_parts(alloc: Global, input: &mut Input) -> Result<PartList, ReadError>
    ensures { Takes parts input.old input.new result }
{
    let items: Items<Saved<Part>> = Stored::read(alloc, input)?;
    match list_of(items.as_slice()) {
        Some(list) => Ok(list),
        None => Err(ReadError::Bad),
    }
}

#[tactic(auto, unfolding(crate::specs::Queues::held, file_format::specs::Kinds::byte_list))]
pub(crate) fn write_held(bytes: &[u8], out: &mut Vec<u8>) -> Result<(), AllocError>
    requires { length bytes.now ≤ 128 }
    ensures fits { OnOk result (held.Fits bytes.now) }
    ensures bytes { OnOk result (out.new.items ≡ held.puts bytes.now out.old.items) }
{
    write_count(bytes.len(), out)?;
    out.extend_from_slice(bytes)?;
    Ok(())
}

#[tactic(auto, unfolding(crate::specs::Queues::held))]
pub(crate) fn read_held(alloc: Global, input: &mut Input) -> Result<Held, ReadError>
    ensures { Takes held input.old input.new result }
{
    let bytes: ByteList = Stored::read(alloc, input)?;
    match Held::copy_of(bytes.as_slice()) {
        Some(held) => Ok(held),
        None => Err(ReadError::Bad),
    }
}

#[tactic(auto, unfolding(crate::specs::Queues::piece, file_format::specs::Kinds::byte_list))]
pub(crate) fn write_piece(bytes: &[u8], out: &mut Vec<u8>) -> Result<(), AllocError>
    requires { length bytes.now ≤ 64 }
    ensures fits { OnOk result (piece.Fits bytes.now) }
    ensures bytes { OnOk result (out.new.items ≡ piece.puts bytes.now out.old.items) }
{
    write_count(bytes.len(), out)?;
    out.extend_from_slice(bytes)?;
    Ok(())
}

#[tactic(auto, unfolding(crate::specs::Queues::piece))]
pub(crate) fn read_piece(alloc: Global, input: &mut Input) -> Result<Piece, ReadError>
    ensures { Takes piece input.old input.new result }
{
    let bytes: ByteList = Stored::read(alloc, input)?;
    if bytes.as_slice().len() <= 64 {
        Ok(Piece::from_slice(bytes.as_slice()))
    } else {
        Err(ReadError::Bad)
    }
}

/// Puts the parts that are still read and the bytes that are held at the end.
#[tactic(auto, unfolding(crate::specs::Queues::collect))]
pub fn write_collect(from: &Collect, out: &mut Vec<u8>) -> Result<(), AllocError>
    ensures fits { OnOk result (collect.Fits from.now) }
    ensures bytes { OnOk result (out.new.items ≡ collect.puts from.now out.old.items) }
{
    write_parts(from.from.parts(), out)?;
    write_held(from.held.as_slice(), out)?;
    Ok(())
}

/// Takes them from the front.
#[tactic(auto, unfolding(crate::specs::Queues::collect))]
pub fn read_collect(alloc: Global, input: &mut Input) -> Result<Collect, ReadError>
    ensures { Takes collect input.old input.new result }
{
    let parts = read_parts(alloc, input)?;
    let held = read_held(alloc, input)?;
    Ok(Collect {
        from: Gather::new(parts),
        held,
    })
}

#[tactic(auto, unfolding(crate::specs::Queues::table))]
impl Stored for Saved<Table> {
    ghost format = { table };

    fn write(&self, out: &mut Vec<u8>) -> Result<(), AllocError> {
        self.value.at.write(out)?;
        self.value.count.write(out)?;
        Ok(())
    }

    fn read(alloc: Global, input: &mut Input) -> Result<Saved<Table>, ReadError> {
        let (at, count) = Stored::read(alloc, input)?;
        Ok(Saved {
            value: Table { at, count },
        })
    }
}

fn stage_code(stage: Stage) -> u8
    ensures { result ≡ stage_code stage }
{
    match stage {
        Stage::Index => 0,
        Stage::Ring => 1,
        Stage::Link { .. } => 2,
        Stage::AvailEvent => 3,
        Stage::IndexAgain => 4,
        Stage::Entry { .. } => 5,
        Stage::EntryRest { .. } => 6,
    }
}

#[tactic(auto, unfolding(crate::specs::Queues::walk_stage, file_format::specs::Kinds::byte))]
impl Stored for Saved<Stage> {
    ghost format = { walk_stage };

    fn write(&self, out: &mut Vec<u8>) -> Result<(), AllocError> {
        stage_code(self.value).write(out)?;
        match self.value {
            Stage::Index | Stage::Ring | Stage::AvailEvent | Stage::IndexAgain => {}
            Stage::Link { head, at } => {
                head.write(out)?;
                at.write(out)?;
            }
            Stage::Entry { head, table, at } => {
                head.write(out)?;
                Saved { value: table }.write(out)?;
                at.write(out)?;
            }
            Stage::EntryRest {
                head,
                table,
                at,
                front,
            } => {
                head.write(out)?;
                Saved { value: table }.write(out)?;
                at.write(out)?;
                write_piece(front.as_slice(), out)?;
            }
        }
        Ok(())
    }

    fn read(alloc: Global, input: &mut Input) -> Result<Saved<Stage>, ReadError> {
        let value = match u8::read(alloc, input)? {
            0 => Stage::Index,
            1 => Stage::Ring,
            2 => {
                let (head, at) = Stored::read(alloc, input)?;
                Stage::Link { head, at }
            }
            3 => Stage::AvailEvent,
            4 => Stage::IndexAgain,
            5 => {
                let (head, (table, at)): (u16, (Saved<Table>, u16)) = Stored::read(alloc, input)?;
                Stage::Entry {
                    head,
                    table: table.value,
                    at,
                }
            }
            6 => {
                let (head, (table, at)): (u16, (Saved<Table>, u16)) = Stored::read(alloc, input)?;
                let front = read_piece(alloc, input)?;
                Stage::EntryRest {
                    head,
                    table: table.value,
                    at,
                    front,
                }
            }
            _ => return Err(ReadError::Bad),
        };
        Ok(Saved { value })
    }
}

/// Puts a walk at the end, behind what was accepted of its queue.
#[tactic(auto, unfolding(crate::specs::Queues::walk, crate::specs::Queues::walk_fields))]
pub fn write_walk(it: &ChainWalk, out: &mut Vec<u8>) -> Result<(), AllocError>
    ensures fits { OnOk result ((walk it.now.queue.accepted).Fits it.now) }
    ensures bytes { OnOk result (out.new.items ≡ (walk it.now.queue.accepted).puts it.now out.old.items) }
{
    it.wanting();
    write_registers(it.queue(), out)?;
    it.number().write(out)?;
    Saved { value: it.stage() }.write(out)?;
    write_parts(it.parts(), out)?;
    Ok(())
}

/// Takes a walk from the front, of whose queue these were accepted.
#[tactic(auto, unfolding(crate::specs::Queues::walk, crate::specs::Queues::walk_fields))]
pub fn read_walk(
    alloc: Global,
    accepted: Accepted,
    input: &mut Input,
) -> Result<ChainWalk, ReadError>
    ensures { Takes (walk accepted) input.old input.new result }
{
    let queue = read_registers(alloc, accepted, input)?;
    let (next, stage): (u16, Saved<Stage>) = Stored::read(alloc, input)?;
    let parts = read_parts(alloc, input)?;
    match ChainWalk::from_parts(queue, next, stage.value, parts) {
        Some(walk) => Ok(walk),
        None => Err(ReadError::Bad),
    }
}

/// Takes the walk that is begun, if there is one, from the front.
#[tactic(auto, unfolding(crate::specs::Queues::maybe_walk, crate::specs::Marks::maybe, file_format::specs::Kinds::byte))]
pub fn read_begun(alloc: Global, input: &mut Input) -> Result<Option<ChainWalk>, ReadError>
    ensures { Takes maybe_walk input.old input.new result }
{
    let code = u8::read(alloc, input)?;
    if code == 0 {
        return Ok(None);
    }
    let Some(accepted) = accepted_at(code - 1) else {
        return Err(ReadError::Bad);
    };
    let walk = read_walk(alloc, accepted, input)?;
    Ok(Some(walk))
}
