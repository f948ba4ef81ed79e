// A network device.
ghost use Rattle.std.specs.Prelude.{◌≡◌, ◌≤◌, OnOk, length, true};
ghost use Rattle.file_format.specs.Ends.{TakesAll, whole};
ghost use Rattle.file_format.specs.Reading.{Takes};
ghost use Rattle.net_device.specs.Frames.{is_text};
ghost use Rattle.snap_devices.specs.Nets.{kind, net, net_fields, stage, stage_code, text};

use crate::limits::{read_limits, write_limits};
use crate::place::{read_place, write_place};
use crate::queue::{read_parts, read_piece, write_parts, write_piece};
use crate::rounds::{read_rounds, write_rounds};
use dev_core::{Gather, Scatter};
use file_format::{Input, ReadError, Stored, write_count};
use net_device::{NetDevice, NetKind, Stage, Text};
use queue_device::QueueRounds;
use std::alloc::{AllocError, Global};
use vm_types::ByteList;

#[tactic(auto, unfolding(crate::specs::Nets::text, file_format::specs::Kinds::byte_list))]
fn write_text(bytes: &[u8], out: &mut Vec<u8>) -> Result<(), AllocError>
    requires { is_text bytes.now ≡ true }
    ensures fits { OnOk result (text.Fits bytes.now) }
    ensures bytes { OnOk result (out.new.items ≡ text.puts bytes.now out.old.items) }
{
    write_count(bytes.len(), out)?;
    out.extend_from_slice(bytes)?;
    Ok(())
}

#[tactic(auto, unfolding(crate::specs::Nets::text))]
fn read_text(alloc: Global, input: &mut Input) -> Result<Text, ReadError>
    ensures { Takes text input.old input.new result }
{
    let bytes: ByteList = Stored::read(alloc, input)?;
    match Text::copy_of(bytes.as_slice()) {
        Some(text) => Ok(text),
        None => Err(ReadError::Bad),
    }
}

fn stage_code(stage: &Stage) -> u8
    ensures { result ≡ stage_code stage.now }
{
    match stage {
        Stage::Rest => 0,
        Stage::Take(_, _) => 1,
        Stage::Receive(_, _) => 2,
        Stage::Read(_, _) => 3,
        Stage::Send(_, _, _) => 4,
        Stage::End => 5,
    }
}

#[tactic(auto, unfolding(crate::specs::Nets::stage, file_format::specs::Kinds::byte))]
fn write_stage(it: &Stage, out: &mut Vec<u8>) -> Result<(), AllocError>
    ensures fits { OnOk result (stage.Fits it.now) }
    ensures bytes { OnOk result (out.new.items ≡ stage.puts it.now out.old.items) }
{
    stage_code(it).write(out)?;
    match it {
        Stage::Rest => {}
        Stage::Take(size, index) => {
            size.write(out)?;
            index.write(out)?;
        }
        Stage::Receive(at, to) => {
            (*at as u64).write(out)?;
            write_parts(to.parts(), out)?;
        }
        Stage::Read(skip, from) => {
            (*skip as u64).write(out)?;
            write_parts(from.parts(), out)?;
        }
        Stage::Send(piece, skip, from) => {
            write_piece(piece.as_slice(), out)?;
            (*skip as u64).write(out)?;
            write_parts(from.parts(), out)?;
        }
        Stage::End => {}
    }
    Ok(())
}

#[tactic(auto, unfolding(crate::specs::Nets::stage, file_format::specs::Kinds::byte))]
fn read_stage(alloc: Global, input: &mut Input) -> Result<Stage, ReadError>
    ensures { Takes stage input.old input.new result }
{
    let stage = match u8::read(alloc, input)? {
        0 => Stage::Rest,
        1 => {
            let (size, index) = Stored::read(alloc, input)?;
            Stage::Take(size, index)
        }
        2 => {
            let at = u64::read(alloc, input)?;
            let to = read_parts(alloc, input)?;
            Stage::Receive(at as usize, Scatter::new(to))
        }
        3 => {
            let skip = u64::read(alloc, input)?;
            let from = read_parts(alloc, input)?;
            Stage::Read(skip as usize, Gather::new(from))
        }
        4 => {
            let piece = read_piece(alloc, input)?;
            let skip = u64::read(alloc, input)?;
            let from = read_parts(alloc, input)?;
            Stage::Send(piece, skip as usize, Gather::new(from))
        }
        5 => Stage::End,
        _ => return Err(ReadError::Bad),
    };
    Ok(stage)
}

#[tactic(auto, unfolding(crate::specs::Nets::kind, crate::specs::Nets::kind_fields))]
fn write_kind(it: &NetKind, out: &mut Vec<u8>) -> Result<(), AllocError>
    ensures fits { OnOk result (kind.Fits it.now) }
    ensures bytes { OnOk result (out.new.items ≡ kind.puts it.now out.old.items) }
{
    write_text(it.text().as_slice(), out)?;
    write_limits(it.rx(), out)?;
    write_limits(it.tx(), out)?;
    write_stage(it.stage(), out)?;
    write_text(it.frame().as_slice(), out)?;
    Ok(())
}

#[tactic(auto, unfolding(crate::specs::Nets::kind, crate::specs::Nets::kind_fields))]
fn read_kind(alloc: Global, input: &mut Input) -> Result<NetKind, ReadError>
    ensures { Takes kind input.old input.new result }
{
    let text = read_text(alloc, input)?;
    let rx = read_limits(alloc, input)?;
    let tx = read_limits(alloc, input)?;
    let stage = read_stage(alloc, input)?;
    let frame = read_text(alloc, input)?;
    match NetKind::from_parts(text, rx, tx, stage, frame) {
        Some(kind) => Ok(kind),
        None => Err(ReadError::Bad),
    }
}

#[tactic(auto, unfolding(crate::specs::Nets::net_fields))]
fn write_fields(it: &QueueRounds<NetKind>, out: &mut Vec<u8>) -> Result<(), AllocError>
    ensures fits { OnOk result (net_fields.Fits it.now) }
    ensures bytes { OnOk result (out.new.items ≡ net_fields.puts it.now out.old.items) }
{
    write_rounds(&it.rounds, out)?;
    write_place(&it.phase, out)?;
    write_kind(&it.kind, out)?;
    Ok(())
}

#[tactic(auto, unfolding(crate::specs::Nets::net_fields))]
fn read_fields(alloc: Global, input: &mut Input) -> Result<QueueRounds<NetKind>, ReadError>
    ensures { Takes net_fields input.old input.new result }
{
    let rounds = read_rounds(alloc, input)?;
    let phase = read_place(alloc, input)?;
    let kind = read_kind(alloc, input)?;
    Ok(QueueRounds {
        rounds,
        kind,
        phase,
    })
}

/// Puts a network device at the end.
#[tactic(auto, unfolding(crate::specs::Nets::net))]
pub fn write_net(it: &NetDevice, out: &mut Vec<u8>) -> Result<(), AllocError>
    ensures fits { OnOk result (net.Fits it.now) }
    ensures bytes { OnOk result (out.new.items ≡ net.puts it.now out.old.items) }
{
    write_fields(it.state(), out)?;
    Ok(())
}

#[tactic(auto, unfolding(crate::specs::Nets::net))]
fn net_at(alloc: Global, input: &mut Input) -> Result<NetDevice, ReadError>
    ensures { Takes net input.old input.new result }
{
    let state = read_fields(alloc, input)?;
    match NetDevice::from_state(state) {
        Some(it) => Ok(it),
        None => Err(ReadError::Bad),
    }
}

/// The network device that all the bytes are that are left.
pub fn read_net(alloc: Global, input: &mut Input) -> Result<NetDevice, ReadError>
    ensures { TakesAll (whole net) input.old result }
{
    let it = net_at(alloc, input)?;
    if input.is_empty() {
        Ok(it)
    } else {
        Err(ReadError::Bad)
    }
}
