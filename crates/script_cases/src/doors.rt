// Connections of two callers, and the listener that gives them.
use outside_mem::{Failing, MemoryCaller, MemoryConn};
use serve_host::{Accepted, Conn, Got, Listener};
use std::alloc::{AllocError, Global};
use vm_outside::Failed;

/// A connection whose caller leaves when it has sent all, or stays.
#[derive(Drop)]
pub struct Line {
    conn: MemoryConn,
    stays: bool,
}

impl Line {
    /// Gives these bytes, of which 7 come first, then 40, and then all others.
    pub fn new(alloc: Global, bytes: &[u8], stays: bool) -> Result<Line, AllocError> {
        let caller = MemoryCaller {
            bytes: bytes.to_vec(alloc)?,
            sizes: [7, 40].to_vec(alloc)?,
            most: usize::MAX,
            failing: Vec::new(alloc),
        };
        let conn = MemoryConn::new(alloc, caller)?;
        Ok(Line { conn, stays })
    }
}

impl Conn for Line {
    ghost use Rattle.std.specs.Prelude.{false, []};

    ghost known = { λ c. record {
      health = record { tells = false; faults = (⟦<MemoryConn as Conn>⟧.known c.conn).health.faults };
      gave = [];
      took = [];
      left = [];
    } };

    fn read(&mut self, buf: &mut [u8]) -> Result<Got, Failed> {
        match self.conn.read(buf) {
            Ok(Got::End) if self.stays => Ok(Got::NotYet),
            other => other,
        }
    }

    fn write(&mut self, bytes: &[u8]) -> Result<usize, Failed> {
        self.conn.write(bytes)
    }
}

/// Gives two connections, and keeps those that are over. It may fail to listen.
#[derive(Drop)]
pub struct Door {
    first: Option<Line>,
    second: Option<Line>,
    listening: Failing,
    over: Option<Line>,
    over_before: Option<Line>,
}

impl Door {
    pub fn new(first: Option<Line>, second: Option<Line>, listening: Failing) -> Door {
        Door {
            first,
            second,
            listening,
            over: None,
            over_before: None,
        }
    }

    /// What the connection took that was over last.
    pub fn took(&self) -> Option<&[u8]> {
        took_of(&self.over)
    }

    /// What the connection took that was over before it.
    pub fn took_before(&self) -> Option<&[u8]> {
        took_of(&self.over_before)
    }
}

fn took_of(over: &Option<Line>) -> Option<&[u8]> {
    match over {
        Some(line) => Some(line.conn.passed().took()),
        None => None,
    }
}

impl Listener<Line> for Door {
    ghost use Rattle.std.specs.Prelude.{false, [], None};

    ghost known = { λ l. record {
      health = record { tells = false; faults = l.listening };
      path = None;
      coming = [];
      ended = [];
    } };

    fn listen(&mut self, _path: &str) -> Result<(), Failed> {
        if self.listening.fails() {
            return Err(Failed);
        }
        Ok(())
    }

    fn accept(&mut self) -> Result<Accepted<Line>, Failed> {
        let next = match self.first.take() {
            Some(line) => Some(line),
            None => self.second.take(),
        };
        match next {
            Some(line) => Ok(Accepted::Conn(line)),
            None => Ok(Accepted::Ended),
        }
    }

    fn end(&mut self, conn: Line) {
        self.over_before = self.over.take();
        self.over = Some(conn);
    }
}
