// Lists of what is configured by ids.
ghost use Rattle.std.specs.Prelude.{◌≡◌, OnOk, length};
ghost use Rattle.std.specs.List.{AllByRecursion};
ghost use Rattle.file_format.specs.Format.{Format};
ghost use Rattle.file_format.specs.Kinds.{list_of, times};
ghost use Rattle.file_format.specs.Readers.{put_all};
ghost use Rattle.file_format.specs.Reading.{Takes};

use api_calls::{Drive, Interface};
use file_format::{Input, ReadError, Stored, write_count};
use std::alloc::{AllocError, Global};
use std::marker::Model;

/// What a state file has in such a list: a value of another crate, which has a format here.
pub trait Item: Drop {
    ghost format: { Format Self };

    /// Puts its bytes at the end.
    fn write(&self, out: &mut Vec<u8>) -> Result<(), AllocError>
        ensures fits { OnOk result (format.Fits self.now) }
        ensures bytes { OnOk result (out.new.items ≡ format.puts self.now out.old.items) };

    /// Takes one from the front.
    fn read(alloc: Global, input: &mut Input) -> Result<Self, ReadError>
        ensures { Takes format input.old input.new result };
}

/// What was configured by ids, as a state file has it.
#[derive(Drop)]
pub struct SavedList<T> {
    pub items: Vec<T>,
}

impl<T> Model for SavedList<T> {
    ghost use Rattle.std.specs.Prelude.{List};

    ghost Value = { List T };

    ghost view = { λ l. l.items.items };
}

/// The drives that were configured.
pub type SavedDrives = SavedList<Drive>;

/// The network interfaces that were configured.
pub type SavedInterfaces = SavedList<Interface>;

impl<T> SavedList<T> {
    pub fn count(&self) -> usize
        ensures { result ≡ length self.now }
    {
        self.items.len()
    }
}

#[tactic(auto, using(file_format::proofs::Loops::writings))]
fn write_all<T: Item>(items: &[T], out: &mut Vec<u8>) -> Result<(), AllocError>
    ensures fit { OnOk result (AllByRecursion T.format.Fits items.now) }
    ensures bytes { OnOk result (out.new.items ≡ put_all T.format.puts items.now out.old.items) }
{
    for it in items {
        it.write(out)?;
    }
    Ok(())
}

#[tactic(auto, using(file_format::proofs::Loops::readings), unfolding(file_format::specs::Kinds::times))]
fn read_all<T: Item>(
    alloc: Global,
    count: u32,
    input: &mut Input,
) -> Result<SavedList<T>, ReadError>
    ensures { Takes (times count T.format) input.old input.new result }
{
    let mut items = Vec::new(alloc);
    for _ in 0..count {
        let it = T::read(alloc, input)?;
        items.push(it)?;
    }
    Ok(SavedList { items })
}

#[tactic(auto, unfolding(file_format::specs::Kinds::list_of, file_format::specs::Kinds::number32, file_format::specs::Kinds::times))]
impl<T: Item> Stored for SavedList<T> {
    ghost format = { list_of T.format };

    fn write(&self, out: &mut Vec<u8>) -> Result<(), AllocError> {
        write_count(self.items.len(), out)?;
        write_all(&self.items, out)?;
        Ok(())
    }

    fn read(alloc: Global, input: &mut Input) -> Result<SavedList<T>, ReadError> {
        let count = u32::read(alloc, input)?;
        let items = read_all(alloc, count, input)?;
        Ok(items)
    }
}
