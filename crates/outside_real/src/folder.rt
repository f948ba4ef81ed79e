// Real files by their names.
ghost use Rattle.std.specs.Prelude.{◌≡◌};
ghost use Rattle.vm_outside.specs.Known.{Called};
ghost use Rattle.outside_real.specs.Counting.{CountsFailure};

use crate::counted::counted;
use crate::entered::Entered;
use crate::named_file;
use crate::open_files::{self, OpenFiles};
use std::{io, rt};
use vm_outside::{Failed, Files};

/// Files whose names are paths, the relative ones from the folder that the program runs in. Only
/// regular files are read, written or made: a directory, a FIFO or a device under the name is a
/// failure, and so is a name with a NUL byte. A link is followed.
///
/// A folder is synced where a file is made, and when a file that was there before is first synced: from then on its
/// name is known to be on disk, and a sync is of the file alone.
#[derive(Drop)]
pub struct Folder<'a, R: rt::Files> {
    rt: &'a R,
    entered: Entered,
    open: OpenFiles<R::File>,
    faults: u64,
}

impl<'a, R: rt::Files + AllocGlobal> Folder<'a, R> {
    /// Each call opens its file, and sees what another program has put under the name.
    pub fn new(rt: &'a R) -> Folder<'a, R>
        ensures { (⟦<Folder<'a, R> as Files>⟧.known result).health.faults ≡ 0 }
    {
        Folder {
            rt,
            entered: Entered::new(rt.alloc()),
            open: OpenFiles::new(false),
            faults: 0,
        }
    }

    /// The file that was read last and the one that was written last stay open, until a size, a sync or a make.
    pub fn keeping_open(rt: &'a R) -> Folder<'a, R>
        ensures { (⟦<Folder<'a, R> as Files>⟧.known result).health.faults ≡ 0 }
    {
        Folder {
            rt,
            entered: Entered::new(rt.alloc()),
            open: OpenFiles::new(true),
            faults: 0,
        }
    }

    /// How many calls have failed. It stays at its last value.
    pub fn faults(&self) -> u64
        ensures { result ≡ (⟦<Folder<'a, R> as Files>⟧.known self.now).health.faults }
    {
        self.faults
    }
}

impl<'a, R: rt::Files + AllocGlobal> Files for Folder<'a, R> {
    ghost use Rattle.std.specs.Prelude.{[]};
    ghost use Rattle.outside_real.specs.Counting.{untold};
    ghost use Rattle.vm_types.specs.Saved.{nothing_saved};
    ghost use Rattle.vm_outside.proofs.Imaging.{none_image};

    ghost known = { λ f. record { health = untold f.faults; saved = nothing_saved; calls = [] } };

    ghost image = { λ f tells. none_image };

    fn size(&mut self, name: &str) -> Result<Option<u64>, Failed>
        ensures counts { CountsFailure (⟦<Folder<'a, R> as Files>⟧.known self.old).health.faults
            (⟦<Folder<'a, R> as Files>⟧.known self.new).health.faults result }
        ensures called { Called (⟦<Folder<'a, R> as Files>⟧.known self.old).health
            (⟦<Folder<'a, R> as Files>⟧.known self.new).health result }
    {
        self.open.close();
        counted(&mut self.faults, named_file::length(self.rt, name))
    }

    fn read_at(&mut self, name: &str, at: u64, buf: &mut [u8]) -> Result<(), Failed>
        ensures counts { CountsFailure (⟦<Folder<'a, R> as Files>⟧.known self.old).health.faults
            (⟦<Folder<'a, R> as Files>⟧.known self.new).health.faults result }
        ensures called { Called (⟦<Folder<'a, R> as Files>⟧.known self.old).health
            (⟦<Folder<'a, R> as Files>⟧.known self.new).health result }
    {
        counted(
            &mut self.faults,
            open_files::read_at(self.rt, &mut self.open, name, at, buf),
        )
    }

    fn write_at(&mut self, name: &str, at: u64, bytes: &[u8]) -> Result<(), Failed>
        ensures counts { CountsFailure (⟦<Folder<'a, R> as Files>⟧.known self.old).health.faults
            (⟦<Folder<'a, R> as Files>⟧.known self.new).health.faults result }
        ensures called { Called (⟦<Folder<'a, R> as Files>⟧.known self.old).health
            (⟦<Folder<'a, R> as Files>⟧.known self.new).health result }
    {
        counted(
            &mut self.faults,
            open_files::write_at(self.rt, &mut self.open, name, at, bytes),
        )
    }

    /// It waits until the disk has the file and the folder's entry for it. Of a link, the entry of
    /// the file that it leads to is left out.
    fn sync(&mut self, name: &str) -> Result<(), Failed>
        ensures counts { CountsFailure (⟦<Folder<'a, R> as Files>⟧.known self.old).health.faults
            (⟦<Folder<'a, R> as Files>⟧.known self.new).health.faults result }
        ensures called { Called (⟦<Folder<'a, R> as Files>⟧.known self.old).health
            (⟦<Folder<'a, R> as Files>⟧.known self.new).health result }
    {
        self.open.close();
        counted(&mut self.faults, sync(self.rt, &mut self.entered, name))
    }

    /// It waits until the disk has the empty file, and the folder's entry for it.
    fn make(&mut self, name: &str) -> Result<(), Failed>
        ensures counts { CountsFailure (⟦<Folder<'a, R> as Files>⟧.known self.old).health.faults
            (⟦<Folder<'a, R> as Files>⟧.known self.new).health.faults result }
        ensures called { Called (⟦<Folder<'a, R> as Files>⟧.known self.old).health
            (⟦<Folder<'a, R> as Files>⟧.known self.new).health result }
    {
        self.open.close();
        counted(&mut self.faults, make(self.rt, &mut self.entered, name))
    }
}

fn sync<R: rt::Files + AllocGlobal>(rt: &R, entered: &mut Entered, name: &str) -> io::Result<()> {
    named_file::sync(rt, name)?;
    if !entered.has(name) {
        enter(rt, entered, name)?;
    }
    Ok(())
}

fn make<R: rt::Files + AllocGlobal>(rt: &R, entered: &mut Entered, name: &str) -> io::Result<()> {
    named_file::make(rt, name)?;
    enter(rt, entered, name)
}

fn enter<R: rt::Files + AllocGlobal>(rt: &R, entered: &mut Entered, name: &str) -> io::Result<()> {
    named_file::sync_entry(rt, name)?;
    entered.keep(rt.alloc(), name);
    Ok(())
}
