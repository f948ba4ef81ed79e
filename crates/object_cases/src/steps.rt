// A file that gives or takes less at a time than it was asked to, or that a signal cuts off.
ghost use Rattle.std.specs.Prelude.{◌≤◌, IfOk};

use crate::showing::{Shown, text_of};
use outside_real::tries::{fill, flush, write_whole};
use std::io;
use std::io::{ErrorKind, Read, Write};

/// What one call does. Every call after the last step is cut off.
#[derive(Clone, Copy, Debug)]
enum Step {
    /// At most so many bytes pass.
    Pass(usize),
    /// A signal cuts the call off.
    Cut,
    /// The call fails.
    Fail,
}

/// Four bytes that are read or written, of which so many have passed, and the steps that are left.
#[derive(Drop)]
struct Stepping<'a> {
    steps: &'a [Step],
    bytes: [u8; 4],
    passed: usize,
}

impl Stepping<'_> {
    /// How many of so many bytes the next call passes.
    fn next(&mut self, len: usize) -> io::Result<usize>
        ensures { IfOk result (λ n. n ≤ len) }
    {
        let Some((step, others)) = self.steps.split_first() else {
            return Err(io::Error::from(ErrorKind::Interrupted));
        };
        self.steps = others;
        match step {
            Step::Pass(most) => Ok((*most).min(len).min(4usize.saturating_sub(self.passed))),
            Step::Cut => Err(io::Error::from(ErrorKind::Interrupted)),
            Step::Fail => Err(io::Error::from(ErrorKind::InvalidData)),
        }
    }
}

impl Read for Stepping<'_> {
    fn read(&mut self, buf: &mut [u8]) -> io::Result<usize> {
        let count = self.next(buf.len())?;
        for byte in buf.iter_mut().take(count) {
            *byte = self.bytes.get(self.passed).copied().unwrap_or(0);
            self.passed = self.passed.saturating_add(1);
        }
        Ok(count)
    }
}

impl Write for Stepping<'_> {
    fn write(&mut self, buf: &[u8]) -> io::Result<usize> {
        let count = self.next(buf.len())?;
        for byte in buf.iter().take(count) {
            if let Some(place) = self.bytes.get_mut(self.passed) {
                *place = *byte;
            }
            self.passed = self.passed.saturating_add(1);
        }
        Ok(count)
    }

    fn flush(&mut self) -> io::Result<()> {
        self.next(0)?;
        Ok(())
    }
}

#[derive(Clone, Copy, Debug)]
enum Call {
    Fill,
    WriteWhole,
    Flush,
}

/// The call, and what the file does.
type Case<'a> = (Call, &'a [Step]);

const CASES: [Case<'_>; 11] = [
    (Call::Fill, &[Step::Pass(2), Step::Cut, Step::Pass(9)]),
    (Call::Fill, &[Step::Pass(4)]),
    (Call::Fill, &[Step::Pass(2), Step::Pass(0)]),
    (Call::Fill, &[Step::Pass(3), Step::Fail]),
    (Call::Fill, &[Step::Pass(3)]),
    (Call::WriteWhole, &[Step::Pass(2), Step::Cut, Step::Pass(9)]),
    (Call::WriteWhole, &[Step::Pass(2), Step::Pass(0)]),
    (Call::WriteWhole, &[Step::Pass(3), Step::Fail]),
    (Call::WriteWhole, &[Step::Pass(3)]),
    (Call::Flush, &[Step::Cut, Step::Pass(0)]),
    (Call::Flush, &[Step::Fail]),
];

/// Of each call whether it is done, how many bytes have passed, and which.
pub fn show(shown: &mut Shown) {
    for (call, steps) in &CASES {
        shown.value(call);
        shown.text(" ");
        shown.value(steps);
        show_answer(*call, steps, shown);
    }
}

fn show_answer(call: Call, steps: &[Step], shown: &mut Shown) {
    let (is_done, passed, bytes) = answer(call, steps);
    shown.text(" => ");
    shown.value(&is_done);
    shown.text(" ");
    shown.value(&passed);
    shown.text(" ");
    shown.value(&text_of(&bytes[..passed.min(4)]));
    shown.text("\n");
}

fn answer(call: Call, steps: &[Step]) -> (bool, usize, [u8; 4]) {
    let mut file = Stepping {
        steps,
        bytes: [0; 4],
        passed: 0,
    };
    let mut bytes = [0; 4];
    let answer = match call {
        Call::Fill => {
            file.bytes = *b"abcd";
            fill(&mut file, &mut bytes)
        }
        Call::WriteWhole => write_whole(&mut file, b"abcd"),
        Call::Flush => flush(&mut file),
    };
    if let Call::WriteWhole = call {
        bytes = file.bytes;
    }
    (answer.is_ok(), file.passed, bytes)
}
