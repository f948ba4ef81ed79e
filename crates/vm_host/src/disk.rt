// What block devices ask.
ghost use Rattle.std.specs.Prelude.{◌≡◌, IfOk, OnErr, OnOk};
ghost use Rattle.vm_host.specs.Storing.{
  AttachesDisk,
  FlushesDisk,
  IsPart,
  MayFlushDisk,
  MayWriteDisk,
  SameDisks,
  WritesDisk,
};
ghost use Rattle.vm_outside.specs.Known.{Called, Lasts, Tells};

use vm_outside::Failed;
use vm_types::Piece;

/// How many bytes a sector has.
pub const SECTOR: usize = 512;

/// And a part of one.
pub const PART: usize = 64;

/// A call that changes a disk, or makes what was written outlive a crash.
#[derive(Clone, Copy, Drop)]
pub enum DiskCall {
    /// These bytes were written over those of a part of a sector.
    Wrote {
        device: u8,
        sector: u64,
        part: u8,
        piece: Piece,
    },
    /// What was written to the device's disk outlives a crash.
    Flushed {
        device: u8,
    },
}

/// The disks of all block devices, in sectors of 512 bytes. A sector is 8 parts of 64 bytes.
pub trait Disk: Drop {
    ghost use Rattle.vm_host.specs.Storing.{DiskKnown};

    ghost known: { Self → DiskKnown };

    /// The device's disk is the file of this name from now on. What can't be opened fails later.
    fn attach(&mut self, device: u8, name: &str)
        ensures attaches { Tells (known self.old).health →
            AttachesDisk device name.now (known self.old) (known self.new) }
        ensures lasts { Lasts (known self.old).health (known self.new).health }
        ensures kept { (known self.new).health.faults ≡ (known self.old).health.faults };

    /// The bytes of a part of a sector. That the disk ends before them is a failure.
    fn read(&mut self, device: u8, sector: u64, part: u8) -> Result<[u8; 64], Failed>
        ensures bytes { IfOk result (λ bytes. Tells (known self.old).health →
            IsPart ((known self.old).held device) sector part bytes) }
        ensures same { Tells (known self.old).health → SameDisks (known self.old) (known self.new) }
        ensures called { Called (known self.old).health (known self.new).health result };

    /// Writes over the bytes of a part of a sector. Where it fails, the device's disk may hold anything.
    fn write(&mut self, device: u8, sector: u64, part: u8, bytes: &[u8; 64]) -> Result<(), Failed>
        ensures writes { OnOk result (Tells (known self.old).health →
            WritesDisk device sector part bytes.now (known self.old) (known self.new)) }
        ensures may_write { OnErr result (Tells (known self.old).health →
            MayWriteDisk device sector part bytes.now (known self.old) (known self.new)) }
        ensures called { Called (known self.old).health (known self.new).health result };

    /// No device acts for a while. What was written is handed to the system, so that others see it, and what was read is forgotten.
    /// What can't be handed over yet is still read back, and a later call of that device fails for it.
    fn settle(&mut self)
        ensures { known self.new ≡ known self.old };

    /// What was written to the device's disk outlives a crash from now on.
    fn flush(&mut self, device: u8) -> Result<(), Failed>
        ensures flushes { OnOk result (Tells (known self.old).health →
            FlushesDisk device (known self.old) (known self.new)) }
        ensures may_flush { OnErr result (Tells (known self.old).health →
            MayFlushDisk device (known self.old) (known self.new)) }
        ensures called { Called (known self.old).health (known self.new).health result };
}
