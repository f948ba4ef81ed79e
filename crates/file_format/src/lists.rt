// Lists of values, bytes and texts.
ghost use Rattle.std.specs.Prelude.{◌≡◌, ◌<◌, ◌++◌, OnOk, IfOk, length, Some, None, Err};
ghost use Rattle.std.specs.Int.{w32, to_le_bytes};
ghost use Rattle.std.specs.List.{AllByRecursion};
ghost use Rattle.file_format.specs.Format.{Format};
ghost use Rattle.file_format.specs.Kinds.{list_of, byte_list, text, times, raw};
ghost use Rattle.file_format.specs.Readers.{put_all};
ghost use Rattle.file_format.specs.Reading.{Takes, Fills};

use crate::error::ReadError;
use crate::input::Input;
use crate::items::Items;
use crate::stored::Stored;
use std::alloc::{AllocError, Global};
use vm_types::{ByteList, TextList};

/// Puts the count of a list at the end. A longer list than a count can say is given up as if there were no memory.
#[tactic(auto, unfolding(crate::specs::Kinds::number32))]
pub fn write_count(len: usize, out: &mut Vec<u8>) -> Result<(), AllocError>
    ensures fits { OnOk result (len < 0x1_0000_0000) }
    ensures bytes { OnOk result (out.new.items ≡ out.old.items ++ to_le_bytes w32 len) }
{
    let Ok(count) = u32::try_from(len) else {
        return Err(AllocError);
    };
    count.write(out)
}

/// Puts the values at the end, one behind the other, without a count.
#[tactic(auto, using(crate::proofs::Loops::writings))]
pub fn write_items<T: Stored>(items: &[T], out: &mut Vec<u8>) -> Result<(), AllocError>
    ensures fit { OnOk result (AllByRecursion T.format.Fits items.now) }
    ensures bytes { OnOk result (out.new.items ≡ put_all T.format.puts items.now out.old.items) }
{
    for item in items {
        item.write(out)?;
    }
    Ok(())
}

/// Takes so many values from the front.
#[tactic(auto, using(crate::proofs::Loops::readings), unfolding(crate::specs::Kinds::times))]
pub fn read_items<T: Stored>(
    alloc: Global,
    count: u32,
    input: &mut Input,
) -> Result<Items<T>, ReadError>
    ensures { Takes (times count T.format) input.old input.new result }
{
    let mut items = Items::new(alloc);
    for _ in 0..count {
        let item = T::read(alloc, input)?;
        items.push(item)?;
    }
    Ok(items)
}

/// Takes as many values from the front as there are places, and puts them there.
#[tactic(auto, using(crate::proofs::Loops::fillings), unfolding(crate::specs::Kinds::times))]
pub fn read_into<T: Stored>(
    alloc: Global,
    places: &mut [T],
    input: &mut Input,
) -> Result<(), ReadError>
    ensures { Fills (times (length places.old) T.format) input.old input.new places.new result }
{
    for i in 0..places.len() {
        places[i] = T::read(alloc, input)?;
    }
    Ok(())
}

#[tactic(auto, unfolding(crate::specs::Kinds::list_of, crate::specs::Kinds::number32, crate::specs::Kinds::times))]
impl<T: Stored> Stored for Items<T> {
    ghost format = { list_of T.format };

    fn write(&self, out: &mut Vec<u8>) -> Result<(), AllocError> {
        let items = self.as_slice();
        write_count(items.len(), out)?;
        write_items(items, out)?;
        Ok(())
    }

    fn read(alloc: Global, input: &mut Input) -> Result<Items<T>, ReadError> {
        let count = u32::read(alloc, input)?;
        let items = read_items(alloc, count, input)?;
        Ok(items)
    }
}

#[tactic(auto, unfolding(crate::specs::Kinds::byte_list))]
fn write_bytes(bytes: &[u8], out: &mut Vec<u8>) -> Result<(), AllocError>
    ensures fit { OnOk result (byte_list.Fits bytes.now) }
    ensures bytes { OnOk result (out.new.items ≡ byte_list.puts bytes.now out.old.items) }
{
    write_count(bytes.len(), out)?;
    out.extend_from_slice(bytes)?;
    Ok(())
}

#[tactic(auto, unfolding(crate::specs::Kinds::byte_list, crate::specs::Kinds::number32, crate::specs::Kinds::raw))]
pub fn bytes_at<'a>(alloc: Global, input: &mut Input<'a>) -> Result<&'a [u8], ReadError>
    ensures ok { IfOk result (λ bytes. byte_list.reads input.old ≡ Some (bytes.now, input.new)) }
    ensures bad { result ≡ Err ReadError.Bad → byte_list.reads input.old ≡ None }
{
    let count = u32::read(alloc, input)?;
    match input.take(count as usize) {
        None => Err(ReadError::Bad),
        Some(bytes) => Ok(bytes),
    }
}

impl Stored for ByteList {
    ghost format = { byte_list };

    fn write(&self, out: &mut Vec<u8>) -> Result<(), AllocError> {
        write_bytes(self.as_slice(), out)
    }

    fn read(alloc: Global, input: &mut Input) -> Result<ByteList, ReadError> {
        let bytes = bytes_at(alloc, input)?;
        let bytes = ByteList::copy_of(alloc, bytes)?;
        Ok(bytes)
    }
}

impl Stored for TextList {
    ghost format = { text };

    #[tactic(auto, using(crate::proofs::Texts::texts), unfolding(crate::specs::Kinds::text))]
    fn write(&self, out: &mut Vec<u8>) -> Result<(), AllocError> {
        let text = self.as_str();
        write_bytes(text.as_bytes(), out)?;
        Ok(())
    }

    #[tactic(auto, using(crate::proofs::Texts::texts), unfolding(crate::specs::Kinds::text))]
    fn read(alloc: Global, input: &mut Input) -> Result<TextList, ReadError> {
        let bytes = bytes_at(alloc, input)?;
        let Ok(text) = str::from_utf8(bytes) else {
            return Err(ReadError::Bad);
        };
        let text = TextList::copy_of(alloc, text)?;
        Ok(text)
    }
}
