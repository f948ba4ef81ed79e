// Lines of a trace on a disk that is full for once.
use crate::showing::{Shown, text_of};
use host_real::TraceLines;
use script_text::Item;
use std::alloc::{AllocError, Global};
use std::io;
use std::io::{ErrorKind, Write};
use vm_types::ActorId;

/// Takes so many bytes, then fails once, and takes all that comes behind that.
#[derive(Drop)]
struct Filling {
    took: Vec<u8>,
    room: usize,
}

impl Write for Filling {
    fn write(&mut self, buf: &[u8]) -> io::Result<usize> {
        if self.room == 0 {
            self.room = usize::MAX;
            return Err(io::Error::from(ErrorKind::StorageFull));
        }
        let count = buf.len().min(self.room);
        self.took.extend_from_slice(&buf[..count])?;
        self.room -= count;
        Ok(count)
    }

    fn flush(&mut self) -> io::Result<()> {
        Ok(())
    }
}

#[derive(Clone, Copy, Debug)]
enum Call {
    /// A line that shows nothing.
    Event,
    Conn,
    Finish,
}

/// How many bytes the disk takes before it fails, and the calls.
type Case<'a> = (usize, &'a [Call]);

const CASES: [Case<'_>; 5] = [
    (99, &[Call::Event, Call::Event]),
    (
        99,
        &[
            Call::Event,
            Call::Conn,
            Call::Event,
            Call::Finish,
            Call::Finish,
        ],
    ),
    (12, &[Call::Event, Call::Event, Call::Conn]),
    (0, &[Call::Event, Call::Finish]),
    (0, &[Call::Event, Call::Finish, Call::Event, Call::Conn]),
];

/// The answers, and what stands on the disk when the lines are let go.
pub fn show(alloc: Global, shown: &mut Shown) -> Result<(), AllocError> {
    for (room, calls) in &CASES {
        let mut disk = Filling {
            took: Vec::new(alloc),
            room: *room,
        };
        show_case(alloc, &mut disk, calls, shown)?;
    }
    Ok(())
}

fn show_case(
    alloc: Global,
    disk: &mut Filling,
    calls: &[Call],
    shown: &mut Shown,
) -> Result<(), AllocError> {
    shown.text("lines: ");
    shown.value(&disk.room);
    shown.text(" ");
    shown.value(&calls);
    let seen = answers(alloc, disk, calls)?;
    shown.show_two("", &text_of(&seen), &text_of(&disk.took));
    Ok(())
}

fn answers(alloc: Global, disk: &mut Filling, calls: &[Call]) -> Result<Vec<u8>, AllocError> {
    let mut seen = Vec::new(alloc);
    let mut lines = TraceLines::new(alloc, disk);
    for call in calls {
        let done = answer(alloc, &mut lines, *call);
        seen.push(if done.is_ok() { b'.' } else { b'x' })?;
    }
    Ok(seen)
}

fn answer(alloc: Global, lines: &mut TraceLines<&mut Filling>, call: Call) -> io::Result<()> {
    match call {
        Call::Event => lines.add(
            alloc,
            &Item::Step {
                actor: ActorId::Timer,
                count: 1,
            },
        ),
        Call::Conn => lines.add(alloc, &Item::Connect),
        Call::Finish => lines.finish(),
    }
}
