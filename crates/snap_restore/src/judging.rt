// What the bytes of a file are found as.
ghost use Rattle.std.specs.Prelude.{◌≡◌, ◌≤◌, ℕ, length, IfOk};
ghost use Rattle.snap_state.specs.Files.{HasFile};
ghost use Rattle.flat_snapshot.specs.Found.{memory_front, memory_judged, state_in};
ghost use Rattle.snap_restore.specs.Finding.{Answers, FindCause, nothing_of, refused_by};
ghost use Rattle.snap_restore.specs.Finding.{said_length, size_judged, size_of, state_of};

use crate::finding::FindError;
use file_format::{DecodeError, is_closed, is_other, version_of};
use guest_memory::PAGE_SIZE;
use refusals::Refusal;
use snap_memory::MemHeader;
use snap_state::{STATE_HEADER, Saved, decode, state_magic};
use std::alloc::Global;
use vm_types::Identity;

/// No state file is longer.
const MOST_BYTES: u64 = 0x2000_0000;

fn refused_by(why: DecodeError) -> FindError
    ensures { result ≡ refused_by why }
{
    match why {
        DecodeError::GateClosed => FindError::Refused(Refusal::GateClosed),
        DecodeError::WrongMagic => FindError::Refused(Refusal::WrongMagic),
        DecodeError::BadField => FindError::Refused(Refusal::BadField),
        DecodeError::OutOfMemory => FindError::OutOfMemory,
    }
}

// How many bytes the body of a state file has, as its header says.
fn said_length(front: &[u8]) -> u32
    requires { 16 ≤ length front.now }
    ensures { result ≡ said_length front.now }
{
    u32::from_le_bytes([front[12], front[13], front[14], front[15]])
}

/// The first bytes of a state file of this size, which is told where they don't refuse it.
pub fn judge_start(size: u64, front: &[u8]) -> Result<u64, FindError>
    ensures judged { Answers size_of result (size_judged size front.now) }
    ensures cause { (n : ℕ) → FindCause result n n }
{
    if is_closed(front, STATE_HEADER) {
        return Err(FindError::Refused(Refusal::GateClosed));
    }
    if is_other(front, &state_magic(version_of(front))) {
        return Err(FindError::Refused(Refusal::WrongMagic));
    }
    if size != said_length(front) as u64 + STATE_HEADER as u64 || MOST_BYTES < size {
        return Err(FindError::Refused(Refusal::BadField));
    }
    Ok(size)
}

/// The bytes of a state file.
pub fn judge_state(alloc: Global, bytes: &[u8]) -> Result<Saved, FindError>
    ensures judged { Answers state_of result (state_in bytes.now) }
    ensures saved { IfOk result (λ saved. HasFile saved) }
    ensures cause { (n : ℕ) → FindCause result n n }
{
    match decode(alloc, bytes) {
        Ok(saved) => Ok(saved),
        Err(why) => Err(refused_by(why)),
    }
}

/// The first bytes of a memory file of this size, beside a state of this identity and so many pages.
pub fn judge_memory(
    alloc: Global,
    identity: Identity,
    pages: u32,
    size: u64,
    front: &[u8],
) -> Result<(), FindError>
    ensures judged { Answers nothing_of result (memory_front identity pages size front.now) }
    ensures cause { (n : ℕ) → FindCause result n n }
{
    match MemHeader::read(alloc, front) {
        Ok(header) => judge_header(identity, pages, size, &header),
        Err(why) => Err(refused_by(why)),
    }
}

fn judge_header(
    identity: Identity,
    pages: u32,
    size: u64,
    header: &MemHeader,
) -> Result<(), FindError>
    ensures judged { Answers nothing_of result (memory_judged identity pages size header.now) }
    ensures cause { (n : ℕ) → FindCause result n n }
{
    if header.merging != 0 {
        return Err(FindError::Refused(Refusal::MergeUnfinished));
    }
    if header.pages != pages || size != MemHeader::SIZE as u64 + PAGE_SIZE as u64 * pages as u64 {
        return Err(FindError::Refused(Refusal::SizesDiffer));
    }
    let own = header.identity();
    if own.lineage != identity.lineage || own.number != identity.number {
        return Err(FindError::Refused(Refusal::ParentDiffers));
    }
    Ok(())
}
