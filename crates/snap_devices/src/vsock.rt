// A vsock device, as it is kept behind a Reset.
ghost use Rattle.std.specs.Prelude.{◌≡◌, true, IfOk, OnOk};
ghost use Rattle.file_format.specs.Ends.{TakesAll, whole};
ghost use Rattle.file_format.specs.Reading.{Takes};
ghost use Rattle.vsock_device.specs.Reset.{is_unconnected};
ghost use Rattle.snap_devices.specs.Vsocks.{vsock_data, fetching, hand_code, head, header, in_hand, operation, packet, stage, stage_code, vsock};
ghost use Rattle.snap_devices.specs.Vsocks.{vsock_fields};

use crate::place::{read_place, write_place};
use crate::queue::{
    read_collect, read_held, read_parts, read_piece, write_collect, write_held, write_parts,
    write_piece,
};
use crate::rounds::{read_rounds, write_rounds};
use crate::saved::Saved;
use dev_core::{Gather, Held};
use file_format::{Input, ReadError, Stored};
use queue_device::{QueueRounds, Spill};
use std::alloc::{AllocError, Global};
use vq_split::PartList;
use vsock_device::{Fetching, Head, InHand, Packet, Stage, Vsock, VsockDevice, VsockKind};
use vsock_packet::{Header, Operation};

// ---- packets for the guest

#[tactic(auto, unfolding(crate::specs::Vsocks::operation, file_format::specs::Kinds::byte))]
impl Stored for Saved<Operation> {
    ghost format = { operation };

    fn write(&self, out: &mut Vec<u8>) -> Result<(), AllocError> {
        let code: u8 = match self.value {
            Operation::Request => 1,
            Operation::Response => 2,
            Operation::Rst => 3,
            Operation::Shutdown => 4,
            Operation::Rw => 5,
            Operation::CreditUpdate => 6,
            Operation::CreditRequest => 7,
        };
        code.write(out)?;
        Ok(())
    }

    fn read(alloc: Global, input: &mut Input) -> Result<Saved<Operation>, ReadError> {
        let value = match u8::read(alloc, input)? {
            1 => Operation::Request,
            2 => Operation::Response,
            3 => Operation::Rst,
            4 => Operation::Shutdown,
            5 => Operation::Rw,
            6 => Operation::CreditUpdate,
            7 => Operation::CreditRequest,
            _ => return Err(ReadError::Bad),
        };
        Ok(Saved { value })
    }
}

#[tactic(auto, unfolding(crate::specs::Vsocks::head))]
impl Stored for Saved<Head> {
    ghost format = { head };

    fn write(&self, out: &mut Vec<u8>) -> Result<(), AllocError> {
        Saved {
            value: self.value.operation,
        }
        .write(out)?;
        self.value.host_port.write(out)?;
        self.value.guest_port.write(out)?;
        self.value.fwd_cnt.write(out)?;
        Ok(())
    }

    fn read(alloc: Global, input: &mut Input) -> Result<Saved<Head>, ReadError> {
        let (operation, (host_port, (guest_port, fwd_cnt))): (Saved<Operation>, (u32, (u32, u32))) =
            Stored::read(alloc, input)?;
        Ok(Saved {
            value: Head {
                operation: operation.value,
                host_port,
                guest_port,
                fwd_cnt,
            },
        })
    }
}

fn saved_head(answer: &Option<Head>) -> Option<Saved<Head>>
    ensures { result ≡ answer.now }
{
    match answer {
        Some(head) => Some(Saved { value: *head }),
        None => None,
    }
}

fn head_of(saved: Option<Saved<Head>>) -> Option<Head>
    ensures { result ≡ saved }
{
    match saved {
        Some(saved) => Some(saved.value),
        None => None,
    }
}

#[tactic(auto, unfolding(crate::specs::Vsocks::packet))]
fn write_packet(it: &Packet, out: &mut Vec<u8>) -> Result<(), AllocError>
    ensures fits { OnOk result (packet.Fits it.now) }
    ensures bytes { OnOk result (out.new.items ≡ packet.puts it.now out.old.items) }
{
    Saved { value: it.head }.write(out)?;
    write_piece(it.bytes.as_slice(), out)?;
    Ok(())
}

#[tactic(auto, unfolding(crate::specs::Vsocks::packet))]
fn read_packet(alloc: Global, input: &mut Input) -> Result<Packet, ReadError>
    ensures { Takes packet input.old input.new result }
{
    let head: Saved<Head> = Stored::read(alloc, input)?;
    let bytes = read_piece(alloc, input)?;
    Ok(Packet {
        head: head.value,
        bytes,
    })
}

// ---- the chain in hand

fn hand_code(hand: &InHand) -> u8
    ensures { result ≡ hand_code hand.now }
{
    match hand {
        InHand::Free => 0,
        InHand::Receives(_) => 1,
        InHand::Unjudged => 2,
        InHand::Orphaned => 3,
        InHand::Judged(_) => 4,
    }
}

#[tactic(auto, unfolding(crate::specs::Vsocks::in_hand, file_format::specs::Kinds::byte))]
fn write_hand(it: &InHand, out: &mut Vec<u8>) -> Result<(), AllocError>
    ensures fits { OnOk result (in_hand.Fits it.now) }
    ensures bytes { OnOk result (out.new.items ≡ in_hand.puts it.now out.old.items) }
{
    hand_code(it).write(out)?;
    match it {
        InHand::Free => {}
        InHand::Receives(packet) => write_packet(packet, out)?,
        InHand::Unjudged => {}
        InHand::Orphaned => {}
        InHand::Judged(refusal) => saved_head(refusal).write(out)?,
    }
    Ok(())
}

#[tactic(auto, unfolding(crate::specs::Vsocks::in_hand, file_format::specs::Kinds::byte))]
fn read_hand(alloc: Global, input: &mut Input) -> Result<InHand, ReadError>
    ensures { Takes in_hand input.old input.new result }
{
    let hand = match u8::read(alloc, input)? {
        0 => InHand::Free,
        1 => {
            let packet = read_packet(alloc, input)?;
            InHand::Receives(packet)
        }
        2 => InHand::Unjudged,
        3 => InHand::Orphaned,
        4 => {
            let refusal: Option<Saved<Head>> = Stored::read(alloc, input)?;
            InHand::Judged(head_of(refusal))
        }
        _ => return Err(ReadError::Bad),
    };
    Ok(hand)
}

// ---- its data

#[tactic(auto, unfolding(crate::specs::Vsocks::vsock_data), using(vsock_device::proofs::Unconnected::made_of))]
fn write_data(it: &Vsock, out: &mut Vec<u8>) -> Result<(), AllocError>
    requires { is_unconnected it.now ≡ true }
    ensures fits { OnOk result (vsock_data.Fits it.now) }
    ensures bytes { OnOk result (out.new.items ≡ vsock_data.puts it.now out.old.items) }
{
    it.guest_cid.write(out)?;
    it.next_port.write(out)?;
    saved_head(&it.answer).write(out)?;
    write_hand(&it.in_hand, out)?;
    it.reset_due.write(out)?;
    Ok(())
}

#[tactic(auto, unfolding(crate::specs::Vsocks::vsock_data))]
fn read_data(alloc: Global, input: &mut Input) -> Result<Vsock, ReadError>
    ensures kept { Takes vsock_data input.old input.new result }
    ensures gone { IfOk result (λ it. is_unconnected it ≡ true) }
{
    let guest_cid = u64::read(alloc, input)?;
    let next_port = u32::read(alloc, input)?;
    let answer: Option<Saved<Head>> = Stored::read(alloc, input)?;
    let hand = read_hand(alloc, input)?;
    let reset_due = bool::read(alloc, input)?;
    Ok(Vsock::unconnected(guest_cid, next_port, head_of(answer), hand, reset_due))
}

// ---- what it is at

#[tactic(auto, unfolding(crate::specs::Vsocks::header))]
impl Stored for Saved<Header> {
    ghost format = { header };

    fn write(&self, out: &mut Vec<u8>) -> Result<(), AllocError> {
        let it = &self.value;
        it.src_cid.write(out)?;
        it.dst_cid.write(out)?;
        it.src_port.write(out)?;
        it.dst_port.write(out)?;
        it.len.write(out)?;
        it.socket_type.write(out)?;
        it.op.write(out)?;
        it.flags.write(out)?;
        it.buf_alloc.write(out)?;
        it.fwd_cnt.write(out)?;
        Ok(())
    }

    fn read(alloc: Global, input: &mut Input) -> Result<Saved<Header>, ReadError> {
        let (src_cid, (dst_cid, (src_port, (dst_port, len)))): (u64, (u64, (u32, (u32, u32)))) =
            Stored::read(alloc, input)?;
        let (socket_type, (op, (flags, (buf_alloc, fwd_cnt)))): (u16, (u16, (u32, (u32, u32)))) =
            Stored::read(alloc, input)?;
        Ok(Saved {
            value: Header {
                src_cid,
                dst_cid,
                src_port,
                dst_port,
                len,
                socket_type,
                op,
                flags,
                buf_alloc,
                fwd_cnt,
            },
        })
    }
}

#[tactic(auto, unfolding(crate::specs::Vsocks::fetching), using(crate::proofs::Reading::is_fetched))]
fn write_fetching(it: &Fetching, out: &mut Vec<u8>) -> Result<(), AllocError>
    ensures fits { OnOk result (fetching.Fits it.now) }
    ensures bytes { OnOk result (out.new.items ≡ fetching.puts it.now out.old.items) }
{
    write_collect(it.inner(), out)?;
    Ok(())
}

#[tactic(auto, unfolding(crate::specs::Vsocks::fetching))]
fn read_fetching(alloc: Global, input: &mut Input) -> Result<Fetching, ReadError>
    ensures { Takes fetching input.old input.new result }
{
    match Fetching::from_parts(read_collect(alloc, input)?) {
        Some(from) => Ok(from),
        None => Err(ReadError::Bad),
    }
}

fn spill_of(held: Held, to: PartList) -> Spill
    ensures { result ≡ record { held = held; to = to } }
{
    Spill::new(held, to)
}

fn stage_code(stage: &Stage) -> u8
    ensures { result ≡ stage_code stage.now }
{
    match stage {
        Stage::Rest => 0,
        Stage::Close(_) => 1,
        Stage::Deliver(_, _) => 2,
        Stage::Event(_) => 3,
        Stage::Fetch(_, _) => 4,
        Stage::Dial(_) => 5,
        Stage::Accept(_, _) => 6,
        Stage::Send(_, _, _) => 7,
        Stage::Read(_, _) => 8,
    }
}

#[tactic(auto, unfolding(crate::specs::Vsocks::stage, file_format::specs::Kinds::byte))]
fn write_stage(it: &Stage, out: &mut Vec<u8>) -> Result<(), AllocError>
    ensures fits { OnOk result (stage.Fits it.now) }
    ensures bytes { OnOk result (out.new.items ≡ stage.puts it.now out.old.items) }
{
    stage_code(it).write(out)?;
    match it {
        Stage::Rest => {}
        Stage::Close(host) => host.write(out)?,
        Stage::Deliver(spill, len) => {
            write_held(spill.held.as_slice(), out)?;
            write_parts(spill.to.parts(), out)?;
            len.write(out)?;
        }
        Stage::Event(spill) => {
            write_held(spill.held.as_slice(), out)?;
            write_parts(spill.to.parts(), out)?;
        }
        Stage::Fetch(from, len) => {
            write_fetching(from, out)?;
            len.write(out)?;
        }
        Stage::Dial(header) => Saved { value: *header }.write(out)?,
        Stage::Accept(host, line) => {
            host.write(out)?;
            write_piece(line.as_slice(), out)?;
        }
        Stage::Send(host, piece, from) => {
            host.write(out)?;
            write_piece(piece.as_slice(), out)?;
            write_parts(from.parts(), out)?;
        }
        Stage::Read(host, from) => {
            host.write(out)?;
            write_parts(from.parts(), out)?;
        }
    }
    Ok(())
}

#[tactic(auto, unfolding(crate::specs::Vsocks::stage, file_format::specs::Kinds::byte))]
fn read_stage(alloc: Global, input: &mut Input) -> Result<Stage, ReadError>
    ensures { Takes stage input.old input.new result }
{
    let stage = match u8::read(alloc, input)? {
        0 => Stage::Rest,
        1 => Stage::Close(u32::read(alloc, input)?),
        2 => {
            let held = read_held(alloc, input)?;
            let to = read_parts(alloc, input)?;
            let len = u32::read(alloc, input)?;
            Stage::Deliver(spill_of(held, to), len)
        }
        3 => {
            let held = read_held(alloc, input)?;
            let to = read_parts(alloc, input)?;
            Stage::Event(spill_of(held, to))
        }
        4 => {
            let from = read_fetching(alloc, input)?;
            let len = u64::read(alloc, input)?;
            Stage::Fetch(from, len)
        }
        5 => {
            let header: Saved<Header> = Stored::read(alloc, input)?;
            Stage::Dial(header.value)
        }
        6 => {
            let host = u32::read(alloc, input)?;
            let line = read_piece(alloc, input)?;
            Stage::Accept(host, line)
        }
        7 => {
            let host = u32::read(alloc, input)?;
            let piece = read_piece(alloc, input)?;
            let from = read_parts(alloc, input)?;
            Stage::Send(host, piece, Gather::new(from))
        }
        8 => {
            let host = u32::read(alloc, input)?;
            let from = read_parts(alloc, input)?;
            Stage::Read(host, Gather::new(from))
        }
        _ => return Err(ReadError::Bad),
    };
    Ok(stage)
}

// ---- the device

#[tactic(auto, unfolding(crate::specs::Vsocks::vsock_fields))]
fn write_fields(it: &QueueRounds<VsockKind>, out: &mut Vec<u8>) -> Result<(), AllocError>
    requires { is_unconnected it.now.kind.own ≡ true }
    ensures fits { OnOk result (vsock_fields.Fits it.now) }
    ensures bytes { OnOk result (out.new.items ≡ vsock_fields.puts it.now out.old.items) }
{
    write_rounds(&it.rounds, out)?;
    write_place(&it.phase, out)?;
    write_data(&it.kind.own, out)?;
    write_stage(&it.kind.stage, out)?;
    Ok(())
}

#[tactic(auto, unfolding(crate::specs::Vsocks::vsock_fields))]
fn read_fields(alloc: Global, input: &mut Input) -> Result<QueueRounds<VsockKind>, ReadError>
    ensures fields { Takes vsock_fields input.old input.new result }
    ensures gone { IfOk result (λ it. is_unconnected it.kind.own ≡ true) }
{
    let rounds = read_rounds(alloc, input)?;
    let phase = read_place(alloc, input)?;
    let own = read_data(alloc, input)?;
    let stage = read_stage(alloc, input)?;
    Ok(QueueRounds {
        rounds,
        kind: VsockKind { own, stage },
        phase,
    })
}

/// Puts a vsock device at the end, which has no connection.
#[tactic(auto, unfolding(crate::specs::Vsocks::vsock))]
pub fn write_vsock(it: &VsockDevice, out: &mut Vec<u8>) -> Result<(), AllocError>
    requires { is_unconnected it.now.kind.own ≡ true }
    ensures fits { OnOk result (vsock.Fits it.now) }
    ensures bytes { OnOk result (out.new.items ≡ vsock.puts it.now out.old.items) }
{
    write_fields(it.state(), out)?;
    Ok(())
}

#[tactic(auto, unfolding(crate::specs::Vsocks::vsock))]
fn vsock_at(alloc: Global, input: &mut Input) -> Result<VsockDevice, ReadError>
    ensures vsock { Takes vsock input.old input.new result }
    ensures gone { IfOk result (λ it. is_unconnected it.kind.own ≡ true) }
{
    let state = read_fields(alloc, input)?;
    match VsockDevice::from_state(state) {
        Some(it) => Ok(it),
        None => Err(ReadError::Bad),
    }
}

/// The vsock device that all the bytes are that are left. It has no connection.
pub fn read_vsock(alloc: Global, input: &mut Input) -> Result<VsockDevice, ReadError>
    ensures vsock { TakesAll (whole vsock) input.old result }
    ensures gone { IfOk result (λ it. is_unconnected it.kind.own ≡ true) }
{
    let it = vsock_at(alloc, input)?;
    if input.is_empty() {
        Ok(it)
    } else {
        Err(ReadError::Bad)
    }
}
