// What was done and what came out, as text.
use serve_host::Accepted;
use std::alloc::{AllocError, Global};
use std::fmt::Debug;
use std::io;
use std::time::{Duration, Instant};
use vm_outside::Failed;

/// All that is shown. Where there is no memory for more, it is cut off.
#[derive(Drop)]
pub struct Shown {
    text: String,
    is_cut: bool,
}

impl Shown {
    pub fn new(alloc: Global) -> Shown {
        Shown {
            text: String::new(alloc),
            is_cut: false,
        }
    }

    /// All of it, where it isn't cut off.
    pub fn whole(&self) -> Result<&str, AllocError> {
        if self.is_cut {
            Err(AllocError)
        } else {
            Ok(self.text.as_str())
        }
    }

    pub fn text(&mut self, text: &str) {
        let put = self.text.push_str(text);
        self.is_cut = self.is_cut || put.is_err();
    }

    pub fn value<T: Debug>(&mut self, value: &T) {
        let put = write!(self.text, "{value:?}");
        self.is_cut = self.is_cut || put.is_err();
    }

    /// A line of what was done, and what came out.
    pub fn show<T: Debug>(&mut self, done: &str, came: &T) {
        self.text(done);
        self.text(" => ");
        self.value(came);
        self.text("\n");
    }

    /// The same where two came out.
    pub fn show_two<T: Debug, U: Debug>(&mut self, done: &str, first: &T, second: &U) {
        self.text(done);
        self.text(" => ");
        self.value(first);
        self.text(" ");
        self.value(second);
        self.text("\n");
    }

    /// The same where bytes and a number came out, too.
    pub fn show_bytes<T: Debug>(&mut self, done: &str, came: &T, bytes: &[u8], number: u64) {
        self.text(done);
        self.text(" => ");
        self.value(came);
        self.text(" ");
        self.value(&text_of(bytes));
        self.text(" ");
        self.value(&number);
        self.text("\n");
    }
}

pub fn text_of(bytes: &[u8]) -> &str {
    str::from_utf8(bytes).unwrap_or("no text")
}

/// How many bytes there are and which, where all are the same.
pub fn alike(bytes: &[u8]) -> Option<(usize, u8)> {
    let first = bytes.first()?;
    if bytes.iter().all(|byte| *byte == *first) {
        Some((bytes.len(), *first))
    } else {
        None
    }
}

/// The same of a part of a disk.
pub fn part_of(read: Result<[u8; 64], Failed>) -> Result<Option<(usize, u8)>, Failed> {
    match read {
        Ok(bytes) => Ok(alike(&bytes)),
        Err(Failed) => Err(Failed),
    }
}

/// What an accept found.
pub fn found<C: Drop>(accepted: &Result<Accepted<C>, Failed>) -> &'static str {
    match accepted {
        Ok(Accepted::Conn(_)) => "a connection",
        Ok(Accepted::NotYet) => "not yet",
        Ok(Accepted::Ended) => "ended",
        Err(Failed) => "failed",
    }
}

/// Whether fewer milliseconds than so many have passed since then.
pub fn waited_for(rt: &HostRuntime, start: Instant, most: u64) -> io::Result<bool> {
    Ok(start.elapsed(rt)? < Duration::from_millis(most))
}
