// Files that are no state file, under a name that a load is given by mistake. What they are refused as is proved; how much
// of them is read is shown here.
use crate::showing::{text_of, words_of};
use monitor_cli::{Outside, replay_main};
use outside_mem::{Failing, MemorySink, SteadySource};
use std::alloc::{AllocError, Global};
use std::io;
use vm_outside::{Failed, Files};

/// A file of this size that begins so and goes on with zeros, under each name; how often it was read, and the most bytes
/// that a call read.
#[derive(Drop)]
struct LongFile {
    size: u64,
    start: [u8; 16],
    reads: u64,
    most: usize,
}

impl Files for LongFile {
    ghost use Rattle.std.specs.Prelude.{false, []};
    ghost use Rattle.vm_types.specs.Saved.{nothing_saved};
    ghost use Rattle.vm_outside.proofs.Imaging.{none_image};

    ghost known = { λ f. record {
      health = record { tells = false; faults = 0 };
      saved = nothing_saved;
      calls = [];
    } };

    ghost image = { λ f tells. none_image };

    fn size(&mut self, _name: &str) -> Result<Option<u64>, Failed> {
        Ok(Some(self.size))
    }

    fn read_at(&mut self, _name: &str, _at: u64, buf: &mut [u8]) -> Result<(), Failed> {
        self.reads = self.reads.saturating_add(1);
        self.most = self.most.max(buf.len());
        for (place, byte) in buf.iter_mut().zip(self.start.iter()) {
            *place = *byte;
        }
        Ok(())
    }

    fn write_at(&mut self, _name: &str, _at: u64, _bytes: &[u8]) -> Result<(), Failed> {
        Ok(())
    }

    fn sync(&mut self, _name: &str) -> Result<(), Failed> {
        Ok(())
    }

    fn make(&mut self, _name: &str) -> Result<(), Failed> {
        Ok(())
    }
}

// As of a file with a hole: more than there is memory for.
const HUGE: u64 = 0x1000_0000_0000_0000;

const ROWS: [(&str, u64, [u8; 16]); 5] = [
    ("zeros", HUGE, *b"\0\0\0\0\0\0\0\0\0\0\0\0\0\0\0\0"),
    ("another magic", HUGE, *b"\x01disk image here"),
    (
        "another version",
        HUGE,
        *b"\x01RVFCSTA\x03\0\0\0\xe0\xff\xff\xff",
    ),
    (
        "another length",
        HUGE,
        *b"\x01RVFCSTA\x01\0\0\0\xe0\xff\xff\xff",
    ),
    // Its header says its length, 2^32, which no state file has.
    (
        "its own length",
        0x1_0000_0000,
        *b"\x01RVFCSTA\x01\0\0\0\xe0\xff\xff\xff",
    ),
];

const LOAD: &[u8] =
    b"api PUT /snapshot/load {\"snapshot_path\":\"disk\",\"mem_file_path\":\"disk\"}\n";

type With = Outside<SteadySource, MemorySink, LongFile>;

pub fn print<R: Print + AllocGlobal>(rt: &R) -> io::Result<()> {
    for (name, size, start) in ROWS {
        let file = LongFile {
            size,
            start,
            reads: 0,
            most: 0,
        };
        let mut with = with_of(rt.alloc(), file)?;
        load_and_print(rt, name, &mut with)?;
    }
    Ok(())
}

fn with_of(alloc: Global, files: LongFile) -> Result<With, AllocError> {
    Ok(Outside {
        source: SteadySource::new(LOAD.to_vec(alloc)?, usize::MAX),
        sink: MemorySink::new(alloc, usize::MAX, Failing::new(Vec::new(alloc))),
        files,
    })
}

fn load_and_print<R: Print + AllocGlobal>(rt: &R, name: &str, with: &mut With) -> io::Result<()> {
    let words = words_of(rt.alloc(), "replay")?;
    let exit = replay_main(rt.alloc(), &words, with);
    let most = with.files.most;
    let reads = with.files.reads;
    println!(rt;
        "a file of {name}: status {}, {:?}, most bytes read at once {most}, reads {reads}",
        exit.status(),
        text_of(with.sink.taken())
    )
}
