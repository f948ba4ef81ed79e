// Files in memory, with a log of what was done on them.
ghost use Rattle.std.specs.Prelude.{◌≡◌, ◌∷◌, [], true, OnOk, OnErr, IsTrue};
ghost use Rattle.std.specs.FinMap.{get, insert};
ghost use Rattle.outside_mem.specs.Writes.{PutsAt};
ghost use Rattle.vm_outside.specs.Filing.{IsReadAt};
ghost use Rattle.outside_mem.specs.Saving.{found_theirs, saved_after};

use crate::failing::Failing;
use crate::file_event::FileEvent;
use std::alloc::{AllocError, Global};
use std::collections::VecDeque;
use vm_outside::{Failed, Files};
use vm_types::{ByteList, FileList, TextList};

/// Keeps what its files hold, and each call that was done on them, the newest first. That there is no
/// memory is a failure.
#[derive(Drop)]
pub struct MemoryFiles {
    alloc: Global,
    files: FileList,
    log: VecDeque<FileEvent>,
    failing: Failing,
    ghost kept: { files ≡ saved_after log.items },
    ghost found: { found_theirs log.items ≡ true },
}

impl MemoryFiles {
    ghost use Rattle.std.specs.Prelude.{◌≡◌, []};
    ghost use Rattle.std.specs.Option.{option_copied};
    ghost use Rattle.std.specs.FinMap.{get};
    ghost use Rattle.vm_types.specs.Saved.{nothing_saved};
    ghost use Rattle.outside_mem.specs.Saving.{saved_after};
    ghost use Rattle.outside_mem.specs.Saving.{calls_of};
    ghost use Rattle.outside_mem.specs.Logged.{logged};

    pub fn new(alloc: Global, failing: Failing) -> MemoryFiles
        ensures known { ⟦<MemoryFiles as Files>⟧.known result ≡
            record { health = record { tells = true; faults = failing }; saved = nothing_saved; calls = [] } }
        ensures logged { logged result ≡ [] }
    {
        MemoryFiles {
            alloc,
            files: FileList::new(alloc),
            log: VecDeque::new(alloc),
            failing,
        }
    }

    /// What the file of this name holds.
    pub fn find(&self, name: &str) -> Option<&[u8]>
        ensures { option_copied result ≡ get (⟦<MemoryFiles as Files>⟧.known self.now).saved name.now }
    {
        self.files.find(name)
    }

    /// What was done, the newest first: it says what the files held at each moment.
    pub fn log(&self) -> &VecDeque<FileEvent>
        ensures events { result.now.items ≡ logged self.now }
        ensures saved { (⟦<MemoryFiles as Files>⟧.known self.now).saved ≡ saved_after (logged self.now) }
        ensures calls { (⟦<MemoryFiles as Files>⟧.known self.now).calls ≡ calls_of (logged self.now) }
    {
        &self.log
    }

    /// How many calls have failed.
    pub fn faults(&self) -> u64
        ensures { result ≡ (⟦<MemoryFiles as Files>⟧.known self.now).health.faults }
    {
        self.failing.faults()
    }
}

impl Files for MemoryFiles {
    ghost use Rattle.std.specs.Prelude.{true};
    ghost use Rattle.outside_mem.specs.Logged.{logged};
    ghost use Rattle.outside_mem.specs.Saving.{calls_of};
    ghost use Rattle.outside_mem.specs.Images.{image_of};

    ghost known = { λ f. record {
      health = record { tells = true; faults = f.failing };
      saved = f.files;
      calls = calls_of (logged f);
    } };

    ghost image = { λ f tells. image_of f.log.items f.files f.kept f.found };

    fn size(&mut self, name: &str) -> Result<Option<u64>, Failed> {
        if self.failing.fails() {
            return Err(Failed);
        }
        Ok(self.files.find(name).map(|content| content.len() as u64))
    }

    fn read_at(&mut self, name: &str, at: u64, buf: &mut [u8]) -> Result<(), Failed> {
        if self.failing.fails() {
            return Err(Failed);
        }
        if !read_content(&self.files, name, at, buf) {
            self.failing.count();
            return Err(Failed);
        }
        Ok(())
    }

    fn write_at(&mut self, name: &str, at: u64, bytes: &[u8]) -> Result<(), Failed> {
        if self.failing.fails() {
            return Err(Failed);
        }
        let Ok(true) = write_content(self.alloc, &mut self.files, &mut self.log, name, at, bytes)
        else {
            self.failing.count();
            return Err(Failed);
        };
        Ok(())
    }

    fn sync(&mut self, name: &str) -> Result<(), Failed> {
        if self.failing.fails() {
            return Err(Failed);
        }
        let Ok(()) = log_sync(self.alloc, &mut self.log, name) else {
            self.failing.count();
            return Err(Failed);
        };
        Ok(())
    }

    fn make(&mut self, name: &str) -> Result<(), Failed> {
        if self.failing.fails() {
            return Err(Failed);
        }
        let Ok(()) = make_file(self.alloc, &mut self.files, &mut self.log, name) else {
            self.failing.count();
            return Err(Failed);
        };
        Ok(())
    }
}

// Fills `buf` from the file's bytes at this offset, or there are too few.
fn read_content(files: &FileList, name: &str, at: u64, buf: &mut [u8]) -> bool
    ensures { IsTrue result → IsReadAt (get files.now name.now) at buf.new }
{
    let Some(content) = files.find(name) else {
        return false;
    };
    read_bytes(content, at, buf)
}

/// Fills `buf` from the bytes at this offset, or there are too few.
pub fn read_bytes(content: &[u8], at: u64, buf: &mut [u8]) -> bool
    ensures { IsTrue result → IsReadAt (Some content.now) at buf.new }
{
    let at = at as usize;
    if content.len() < at || content.len() - at < buf.len() {
        return false;
    }
    buf.copy_from_slice(&content[at..at + buf.len()]);
    true
}

// Writes to the file and logs it, or there is no such file. What can fail comes before what changes.
fn write_content(
    alloc: Global,
    files: &mut FileList,
    log: &mut VecDeque<FileEvent>,
    name: &str,
    at: u64,
    bytes: &[u8],
) -> Result<bool, AllocError>
    ensures written { result ≡ Ok true → PutsAt files.old name.now at bytes.now files.new
        × (log.new.items ≡ FileEvent.Wrote name.now at bytes.now ∷ log.old.items) }
    ensures unchanged { (result ≡ Ok true → ⊥) → (files.new ≡ files.old) × (log.new.items ≡ log.old.items) }
{
    let event = FileEvent::Wrote {
        name: TextList::copy_of(alloc, name)?,
        at,
        bytes: ByteList::copy_of(alloc, bytes)?,
    };
    log.reserve(1)?;
    if !files.write(name, at as usize, bytes)? {
        return Ok(false);
    }
    log.push_front_reserved(event);
    Ok(true)
}

fn log_sync(alloc: Global, log: &mut VecDeque<FileEvent>, name: &str) -> Result<(), AllocError>
    ensures ok { OnOk result (log.new.items ≡ FileEvent.Synced name.now ∷ log.old.items) }
    ensures err { OnErr result (log.new.items ≡ log.old.items) }
{
    let event = FileEvent::Synced {
        name: TextList::copy_of(alloc, name)?,
    };
    log.push_front(event)?;
    Ok(())
}

fn make_file(
    alloc: Global,
    files: &mut FileList,
    log: &mut VecDeque<FileEvent>,
    name: &str,
) -> Result<(), AllocError>
    ensures made { OnOk result (files.new ≡ insert files.old name.now []) }
    ensures logged { OnOk result (log.new.items ≡ FileEvent.Made name.now ∷ log.old.items) }
    ensures unchanged { OnErr result ((files.new ≡ files.old) × (log.new.items ≡ log.old.items)) }
{
    let event = FileEvent::Made {
        name: TextList::copy_of(alloc, name)?,
    };
    log.reserve(1)?;
    files.put(name, ByteList::new(alloc))?;
    log.push_front_reserved(event);
    Ok(())
}
