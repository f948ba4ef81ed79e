// Named files, read and written at an offset.
ghost use Rattle.std.specs.Prelude.{◌≡◌, length, IfOk, OnOk, OnErr};
ghost use Rattle.std.specs.Option.{option_map};
ghost use Rattle.std.specs.FinMap.{get};
ghost use Rattle.vm_outside.specs.Calls.{FileCall};
ghost use Rattle.vm_outside.specs.Calls.FileCall.{Making, Writing};
ghost use Rattle.vm_outside.specs.Filing.{IsReadAt, MakesFile, MayChange, SameFiles, Syncs, WritesAt};
ghost use Rattle.vm_outside.specs.Known.{Called, Tells};

use crate::failed::Failed;

/// Files, each under a name. Offsets and lengths are in bytes. The law `image` says that what reads give is one of the
/// images that a crash may leave now.
pub trait Files: Drop {
    ghost use Rattle.std.specs.FinMap.{get};
    ghost use Rattle.vm_outside.specs.Known.{FilesKnown, Tells};
    ghost use Rattle.vm_outside.specs.Crashes.{Images};

    ghost known: { Self → FilesKnown };

    ghost image: { (f : Self) → Tells (known f).health → Images (known f).calls (λ name. get (known f).saved name) };

    /// How long the file is, where there is one.
    fn size(&mut self, name: &str) -> Result<Option<u64>, Failed>
        ensures size { IfOk result (λ size. Tells (known self.old).health →
            size ≡ option_map length (get (known self.old).saved name.now)) }
        ensures same { Tells (known self.old).health → SameFiles (known self.old) (known self.new) }
        ensures called { Called (known self.old).health (known self.new).health result };

    /// Fills `buf` from this offset. That there are too few bytes, or no file, is a failure.
    fn read_at(&mut self, name: &str, at: u64, buf: &mut [u8]) -> Result<(), Failed>
        ensures bytes { OnOk result (Tells (known self.old).health →
            IsReadAt (get (known self.old).saved name.now) at buf.new) }
        ensures same { Tells (known self.old).health → SameFiles (known self.old) (known self.new) }
        ensures called { Called (known self.old).health (known self.new).health result };

    /// Writes all of `bytes` over what is there; past the end, what lies between is zeros. That there is
    /// no file is a failure.
    fn write_at(&mut self, name: &str, at: u64, bytes: &[u8]) -> Result<(), Failed>
        ensures written { OnOk result (Tells (known self.old).health →
            WritesAt (known self.old) name.now at bytes.now (known self.new)) }
        ensures begun { OnErr result (Tells (known self.old).health →
            MayChange (known self.old) name.now (Writing name.now at bytes.now) (known self.new)) }
        ensures called { Called (known self.old).health (known self.new).health result };

    /// What was written to the file outlives a crash from now on.
    fn sync(&mut self, name: &str) -> Result<(), Failed>
        ensures synced { OnOk result (Tells (known self.old).health →
            Syncs (known self.old) name.now (known self.new)) }
        ensures same { OnErr result (Tells (known self.old).health → SameFiles (known self.old) (known self.new)) }
        ensures called { Called (known self.old).health (known self.new).health result };

    /// Makes an empty file in the place of what was there.
    fn make(&mut self, name: &str) -> Result<(), Failed>
        ensures made { OnOk result (Tells (known self.old).health →
            MakesFile (known self.old) name.now (known self.new)) }
        ensures begun { OnErr result (Tells (known self.old).health →
            MayChange (known self.old) name.now (Making name.now) (known self.new)) }
        ensures called { Called (known self.old).health (known self.new).health result };
}
