// What a device is answered that asks an object of the host.
ghost use Rattle.std.specs.Prelude.{◌≡◌, ◌<◌, true, IfSome, IsSome, Some, length};
ghost use Rattle.vm_types.specs.declared.op.Op.TheVariants.{Out};
ghost use Rattle.vm_types.specs.declared.op.OutOp.TheVariants as out;
ghost use Rattle.vm_outside.specs.Known.{Lasts};
ghost use Rattle.monitor_machine.specs.Kinds.{disks, links, vsocks, words};
ghost use Rattle.monitor_running.specs.Devices.{CanBeAsked, IsGiven, IsGivenBy, can_be_asked};
ghost use Rattle.monitor_running.specs.Objects.{with_devices};

use crate::objects::TurnObjects;
use vm_host::{Disk, GuestWords, HostEvent, Link, VsockHost};
use vm_outside::Failed;
use vm_types::{Op, OutOp, Piece, Reply};

/// A sector of a disk has so many parts.
const PARTS: u64 = 8;

// The bytes of a part, if these are as many.
fn part_of(piece: &Piece) -> Option<[u8; 64]>
    ensures bytes { IfSome result (λ bytes. bytes ≡ piece.now) }
    ensures all { length piece.now ≡ 64 → IsSome result }
{
    if piece.len() != 64 {
        return None;
    }
    let mut bytes = [0; 64];
    bytes.copy_from_slice(piece.as_slice());
    Some(bytes)
}

// ---- disks

fn read<D: Disk>(disk: &mut D, device: u8, sector: u64, part: u64) -> Option<Reply>
    ensures given { IsGivenBy disks device (Out (out.DiskRead sector part)) (D.known disk.old) result (D.known disk.new) }
    ensures asked { part < 8 → IsSome result }
    ensures lasts { Lasts (D.known disk.old).health (D.known disk.new).health }
{
    if part >= PARTS {
        return None;
    }
    match disk.read(device, sector, part as u8) {
        Ok(bytes) => Some(Reply::Bytes(Piece::from_slice(&bytes))),
        Err(Failed) => Some(Reply::Failed),
    }
}

fn write<D: Disk>(disk: &mut D, device: u8, sector: u64, part: u64, piece: &Piece) -> Option<Reply>
    ensures given { IsGivenBy disks device (Out (out.DiskWrite sector part piece.now)) (D.known disk.old) result (D.known disk.new) }
    ensures asked { part < 8 → length piece.now ≡ 64 → IsSome result }
    ensures lasts { Lasts (D.known disk.old).health (D.known disk.new).health }
{
    if part >= PARTS {
        return None;
    }
    let bytes = part_of(piece)?;
    match disk.write(device, sector, part as u8, &bytes) {
        Ok(()) => Some(Reply::Done),
        Err(Failed) => Some(Reply::Failed),
    }
}

fn flush<D: Disk>(disk: &mut D, device: u8) -> Reply
    ensures given { IsGivenBy disks device (Out out.DiskFlush) (D.known disk.old) (Some result) (D.known disk.new) }
    ensures lasts { Lasts (D.known disk.old).health (D.known disk.new).health }
{
    match disk.flush(device) {
        Ok(()) => Reply::Done,
        Err(Failed) => Reply::Failed,
    }
}

/// `None` where no disk is called, or as no disk is called: no device asks for a part that a sector has not, or writes another number
/// of bytes than a part has.
pub fn ask_disk<D: Disk>(disk: &mut D, device: u8, act: &OutOp) -> Option<Reply>
    ensures given { IsGivenBy disks device (Out act.now) (D.known disk.old) result (D.known disk.new) }
    ensures asked { CanBeAsked (Out act.now) → disks.is_call act.now ≡ true → IsSome result }
    ensures lasts { Lasts (D.known disk.old).health (D.known disk.new).health }
{
    match act {
        OutOp::DiskRead { sector, part } => read(disk, device, *sector, *part),
        OutOp::DiskWrite {
            sector,
            part,
            piece,
        } => write(disk, device, *sector, *part, piece),
        OutOp::DiskFlush => Some(flush(disk, device)),
        _ => None,
    }
}

// ---- links

fn take<L: Link>(link: &mut L, device: u8) -> Reply
    ensures given { IsGivenBy links device (Out out.LinkTake) (L.known link.old) (Some result) (L.known link.new) }
    ensures lasts { Lasts (L.known link.old).health (L.known link.new).health }
{
    match link.take(device) {
        Ok(Some(count)) => Reply::Frame {
            length: u64::from(count),
        },
        Ok(None) => Reply::Nothing,
        Err(Failed) => Reply::Failed,
    }
}

fn part<L: Link>(link: &mut L, device: u8, index: u64, count: u64) -> Reply
    ensures given { IsGivenBy links device (Out (out.LinkPart index count)) (L.known link.old) (Some result) (L.known link.new) }
    ensures lasts { Lasts (L.known link.old).health (L.known link.new).health }
{
    match link.part(device, index, count as usize) {
        Ok(piece) => Reply::Bytes(piece),
        Err(Failed) => Reply::Failed,
    }
}

fn send_part<L: Link>(link: &mut L, device: u8, piece: &Piece) -> Reply
    ensures given { IsGivenBy links device (Out (out.LinkSend piece.now)) (L.known link.old) (Some result) (L.known link.new) }
    ensures lasts { Lasts (L.known link.old).health (L.known link.new).health }
{
    match link.send_part(device, *piece) {
        Ok(()) => Reply::Done,
        Err(Failed) => Reply::Failed,
    }
}

fn send_end<L: Link>(link: &mut L, device: u8) -> Reply
    ensures given { IsGivenBy links device (Out out.LinkEnd) (L.known link.old) (Some result) (L.known link.new) }
    ensures lasts { Lasts (L.known link.old).health (L.known link.new).health }
{
    match link.send_end(device) {
        Ok(()) => Reply::Done,
        Err(Failed) => Reply::Failed,
    }
}

/// `None` where no link is called.
pub fn ask_link<L: Link>(link: &mut L, device: u8, act: &OutOp) -> Option<Reply>
    ensures given { IsGivenBy links device (Out act.now) (L.known link.old) result (L.known link.new) }
    ensures asked { links.is_call act.now ≡ true → IsSome result }
    ensures lasts { Lasts (L.known link.old).health (L.known link.new).health }
{
    match act {
        OutOp::LinkTake => Some(take(link, device)),
        OutOp::LinkPart { index, length } => Some(part(link, device, *index, *length)),
        OutOp::LinkSend { piece } => Some(send_part(link, device, piece)),
        OutOp::LinkEnd => Some(send_end(link, device)),
        _ => None,
    }
}

// ---- the vsock device

fn next<V: VsockHost>(vsock: &mut V, device: u8) -> Reply
    ensures given { IsGivenBy vsocks device (Out out.HostNext) (V.known vsock.old) (Some result) (V.known vsock.new) }
    ensures lasts { Lasts (V.known vsock.old).health (V.known vsock.new).health }
{
    match &vsock.next() {
        Ok(HostEvent::Nothing) => Reply::Nothing,
        Ok(HostEvent::New { connection }) => Reply::Opened {
            connection: *connection,
        },
        Ok(HostEvent::Bytes { connection, piece }) => Reply::Received {
            piece: *piece,
            connection: *connection,
        },
        Ok(HostEvent::Ended { connection }) => Reply::Ended {
            connection: *connection,
        },
        Err(Failed) => Reply::Failed,
    }
}

fn dial<V: VsockHost>(vsock: &mut V, device: u8, port: u32) -> Reply
    ensures given { IsGivenBy vsocks device (Out (out.HostDial port)) (V.known vsock.old) (Some result) (V.known vsock.new) }
    ensures lasts { Lasts (V.known vsock.old).health (V.known vsock.new).health }
{
    match vsock.dial(port) {
        Ok(Some(connection)) => Reply::Dialled { connection },
        Ok(None) => Reply::Nothing,
        Err(Failed) => Reply::Failed,
    }
}

fn send<V: VsockHost>(vsock: &mut V, device: u8, piece: &Piece, connection: u32) -> Reply
    ensures given { IsGivenBy vsocks device (Out (out.HostSend piece.now connection))
        (V.known vsock.old) (Some result) (V.known vsock.new) }
    ensures lasts { Lasts (V.known vsock.old).health (V.known vsock.new).health }
{
    match vsock.send(connection, *piece) {
        Ok(()) => Reply::Done,
        Err(Failed) => Reply::Failed,
    }
}

fn close<V: VsockHost>(vsock: &mut V, device: u8, connection: u32) -> Reply
    ensures given { IsGivenBy vsocks device (Out (out.HostClose connection))
        (V.known vsock.old) (Some result) (V.known vsock.new) }
    ensures lasts { Lasts (V.known vsock.old).health (V.known vsock.new).health }
{
    match vsock.close(connection) {
        Ok(()) => Reply::Done,
        Err(Failed) => Reply::Failed,
    }
}

/// `None` where the host's end isn't called.
pub fn ask_vsock<V: VsockHost>(vsock: &mut V, device: u8, act: &OutOp) -> Option<Reply>
    ensures given { IsGivenBy vsocks device (Out act.now) (V.known vsock.old) result (V.known vsock.new) }
    ensures asked { vsocks.is_call act.now ≡ true → IsSome result }
    ensures lasts { Lasts (V.known vsock.old).health (V.known vsock.new).health }
{
    match act {
        OutOp::HostNext => Some(next(vsock, device)),
        OutOp::HostDial { port } => Some(dial(vsock, device, *port)),
        OutOp::HostSend { piece, connection } => Some(send(vsock, device, piece, *connection)),
        OutOp::HostClose { connection } => Some(close(vsock, device, *connection)),
        _ => None,
    }
}

// ---- entropy devices

fn draw<G: GuestWords>(guest_words: &mut G, device: u8) -> Reply
    ensures given { IsGivenBy words device (Out out.DrawWord) (G.known guest_words.old) (Some result) (G.known guest_words.new) }
    ensures lasts { Lasts (G.known guest_words.old).health (G.known guest_words.new).health }
{
    match guest_words.word(device) {
        Ok(word) => Reply::Drawn { word },
        Err(Failed) => Reply::Failed,
    }
}

/// `None` where no word is asked for.
pub fn ask_words<G: GuestWords>(guest_words: &mut G, device: u8, act: &OutOp) -> Option<Reply>
    ensures given { IsGivenBy words device (Out act.now) (G.known guest_words.old) result (G.known guest_words.new) }
    ensures asked { words.is_call act.now ≡ true → IsSome result }
    ensures lasts { Lasts (G.known guest_words.old).health (G.known guest_words.new).health }
{
    match act {
        OutOp::DrawWord => Some(draw(guest_words, device)),
        _ => None,
    }
}

// ---- all of them

/// Whether a call can be made: a sector has eight parts of 64 bytes, and no device asks the clock.
pub fn can_be_asked(act: &OutOp) -> bool
    ensures { result ≡ can_be_asked act.now }
{
    match act {
        OutOp::Clock => false,
        OutOp::DiskRead { sector: _, part } => *part < PARTS,
        OutOp::DiskWrite {
            sector: _,
            part,
            piece,
        } => *part < PARTS && piece.len() == 64,
        _ => true,
    }
}

/// What its host object answers a device that asks this: the object of the kind whose call it is. `None` where it asks none, or as no
/// device asks one.
pub fn ask_host<W: TurnObjects>(with: &mut W, device: u8, op: &Op) -> Option<Reply>
    ensures given { IsGiven device op.now (W.known with.old).host.devices result (W.known with.new).host.devices }
    ensures asked { CanBeAsked op.now → IsSome result }
    ensures beside { W.known with.new ≡ with_devices (W.known with.old) (W.known with.new).host.devices }
{
    let Op::Out(act) = op else {
        return None;
    };
    let host = with.host();
    host.devices.ask(device, act)
}
