// A disk that begins with 64 bytes, a link and a vsock host in memory, of which each has a call that fails.
use crate::showing::{Shown, alike, part_of, text_of};
use outside_mem::{Failing, Frame, MemoryDisk, MemoryLink, MemoryVsock, MemoryWire};
use std::alloc::{AllocError, Global};
use std::collections::VecDeque;
use vm_host::{Attached, Disk, DiskCall, HostEvent, Link, VsockHost};
use vm_outside::Failed;
use vm_types::{ByteList, Piece};

pub fn show(alloc: Global, shown: &mut Shown) -> Result<(), AllocError> {
    show_disk(&mut disk(alloc)?, shown);
    show_called(&mut disk(alloc)?, shown);
    show_link(&mut link(alloc)?, shown);
    show_vsock(&mut vsock(alloc)?, shown);
    Ok(())
}

fn failing(alloc: Global, call: u64) -> Result<Failing, AllocError> {
    Ok(Failing::new([call].to_vec(alloc)?))
}

fn disk(alloc: Global) -> Result<MemoryDisk, AllocError> {
    let mut disks = Vec::new(alloc);
    disks.push(ByteList::copy_of(alloc, &[3; 64])?)?;
    Ok(MemoryDisk::new(alloc, disks, failing(alloc, 1)?))
}

fn show_disk(disk: &mut MemoryDisk, shown: &mut Shown) {
    shown.show("disk: write", &disk.write(0, 1, 2, &[9; 64]));
    show_part("disk: read 0 1 2", disk, (0, 1, 2), shown);
    show_part("disk: read 0 1 2", disk, (0, 1, 2), shown);
    show_part("disk: read 0 1 1", disk, (0, 1, 1), shown);
    show_part("disk: read 0 0 0", disk, (0, 0, 0), shown);
    show_part("disk: read 0 1 3", disk, (0, 1, 3), shown);
    show_part("disk: read 1 0 0", disk, (1, 0, 0), shown);
    shown.show("disk: failed", &disk.faults());
}

// The second call fails.
fn show_called(disk: &mut MemoryDisk, shown: &mut Shown) {
    show_files(disk, shown);
    disk.attach(0, "first");
    disk.attach(255, "last");
    show_files(disk, shown);
    disk.attach(0, "second");
    show_files(disk, shown);
    shown.show("disk: write", &disk.write(0, 0, 7, &[8; 64]));
    shown.show("disk: write", &disk.write(0, 0, 6, &[7; 64]));
    shown.show("disk: flush", &disk.flush(0));
    show_part("disk: read 0 0 6", disk, (0, 0, 6), shown);
    disk.settle();
    show_calls(disk.calls(), shown);
}

fn show_files(disk: &MemoryDisk, shown: &mut Shown) {
    let names = [0, 1, 255].map(|device| name_of(disk.file(device)));
    shown.show("disk: files of 0, 1 and 255", &names);
}

fn name_of(attached: &Attached) -> &str {
    match attached {
        Attached::Nothing => "nothing",
        Attached::Named(name) => name.as_str(),
        Attached::Unkept => "a name that isn't kept",
    }
}

fn show_calls(calls: &[DiskCall], shown: &mut Shown) {
    for call in calls {
        show_call(call, shown);
    }
}

fn show_call(call: &DiskCall, shown: &mut Shown) {
    match call {
        DiskCall::Wrote {
            device,
            sector,
            part,
            piece,
        } => {
            let at = (*device, *sector, *part);
            shown.show_two("disk: wrote", &at, &alike(piece.as_slice()));
        }
        DiskCall::Flushed { device } => shown.show("disk: flushed", device),
    }
}

/// A part of a disk, which stands at a device, a sector and a number.
pub fn show_part<D: Disk>(done: &str, disk: &mut D, at: (u8, u64, u8), shown: &mut Shown) {
    shown.show(done, &part_of(disk.read(at.0, at.1, at.2)));
}

// One frame comes.
fn link(alloc: Global) -> Result<MemoryLink, AllocError> {
    let mut coming = VecDeque::new(alloc);
    if let Some(frame) = Frame::new([3; 70].to_vec(alloc)?) {
        coming.push_back(frame)?;
    }
    let mut wires = Vec::new(alloc);
    wires.push(MemoryWire::new(alloc, coming))?;
    Ok(MemoryLink::new(alloc, wires, failing(alloc, 5)?))
}

fn show_link(link: &mut MemoryLink, shown: &mut Shown) {
    shown.show("link: socket of 0", &name_of(link.socket(0)));
    link.attach(0, "wire");
    shown.show("link: socket of 0", &name_of(link.socket(0)));
    shown.show("link: take", &[link.take(0), link.take(0)]);
    show_piece("link: part of 6", &link.part(0, 1, 6), shown);
    show_piece("link: part of 7", &link.part(0, 1, 7), shown);
    show_sent("link: send dropped", link, b"dropped", shown);
    show_sent("link: send dropped", link, b"dropped", shown);
    show_sent("link: send sent", link, b"sent", shown);
    shown.show("link: end", &link.send_end(0));
    shown.show("link: sent, failed", &(first_sent(link), link.faults()));
}

fn show_piece(done: &str, part: &Result<Piece, Failed>, shown: &mut Shown) {
    match part {
        Ok(piece) => shown.show(done, &piece.as_slice()),
        Err(failed) => shown.show(done, failed),
    }
}

fn show_sent(done: &str, link: &mut MemoryLink, bytes: &[u8], shown: &mut Shown) {
    let most = bytes.len().min(Piece::MOST);
    let piece = Piece::from_slice(&bytes[..most]);
    shown.show(done, &link.send_part(0, piece));
}

fn first_sent(link: &MemoryLink) -> Option<&str> {
    Some(text_of(link.wires().first()?.sent().first()?.as_slice()))
}

fn vsock(alloc: Global) -> Result<MemoryVsock, AllocError> {
    let mut coming = VecDeque::new(alloc);
    coming.push_back(HostEvent::New { connection: 4 })?;
    let mut answers = VecDeque::new(alloc);
    answers.push_back(Some(8))?;
    Ok(MemoryVsock::new(alloc, coming, answers, failing(alloc, 4)?))
}

fn show_vsock(vsock: &mut MemoryVsock, shown: &mut Shown) {
    shown.show("vsock: sockets", &name_of(vsock.sockets()));
    vsock.attach(0, "sockets");
    shown.show("vsock: sockets", &name_of(vsock.sockets()));
    shown.show("vsock: next", &[vsock.next(), vsock.next()]);
    shown.show("vsock: dial", &[vsock.dial(80), vsock.dial(81)]);
    shown.show("vsock: send", &vsock.send(8, Piece::empty()));
    shown.show("vsock: close", &vsock.close(8));
    shown.show("vsock: next", &[vsock.next(), vsock.next()]);
    let counts = (vsock.done().len(), vsock.faults());
    shown.show("vsock: done, failed", &counts);
}
