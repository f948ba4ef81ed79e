// What the bytes of files are found as.
ghost use Rattle.std.specs.Prelude.{◌≡◌, ◌+◌, IfOk, IsTrue, List, ℕ, length, take};
ghost use Rattle.snap_diff.specs.Diffs.{Begins, is_table, size_behind, table_size};
ghost use Rattle.snapshot_merge.specs.Answering.{
  Answers,
  AreRunsOf,
  IsHeader,
  Same,
  StartJudged,
  TableJudged,
  failed_by,
  refused_by,
};
ghost use Rattle.snapshot_merge.specs.Bases.{base_front, base_sized};
ghost use Rattle.snapshot_merge.specs.Rebasing.{RebaseCause};

use crate::error::RebaseError;
use file_format::{DecodeError, Items, ReadError};
use gate_file::FileError;
use guest_memory::PAGE_SIZE;
use refusals::Refusal;
use snap_diff::{DiffHeader, Run, read_table};
use snap_memory::MemHeader;
use std::alloc::Global;

pub(crate) fn refused_by(why: DecodeError) -> RebaseError
    ensures { result ≡ refused_by why }
{
    match why {
        DecodeError::GateClosed => RebaseError::Refused(Refusal::GateClosed),
        DecodeError::WrongMagic => RebaseError::Refused(Refusal::WrongMagic),
        DecodeError::BadField => RebaseError::Refused(Refusal::BadField),
        DecodeError::OutOfMemory => RebaseError::OutOfMemory,
    }
}

pub(crate) fn failed_by(why: FileError) -> RebaseError
    ensures { result ≡ failed_by why }
{
    match why {
        FileError::Fault => RebaseError::Fault,
        FileError::OutOfMemory => RebaseError::OutOfMemory,
    }
}

/// The first bytes of a base of this size.
pub(crate) fn judge_base(alloc: Global, size: u64, front: &[u8]) -> Result<MemHeader, RebaseError>
    ensures judged { Answers Same result (base_front size front.now) }
    ensures cause { (n : ℕ) → RebaseCause result n n }
{
    match MemHeader::read(alloc, front) {
        Ok(header) => size_base(size, header),
        Err(why) => Err(refused_by(why)),
    }
}

fn size_base(size: u64, header: MemHeader) -> Result<MemHeader, RebaseError>
    ensures judged { Answers Same result (base_sized size header) }
    ensures cause { (n : ℕ) → RebaseCause result n n }
{
    if size == MemHeader::SIZE as u64 + PAGE_SIZE as u64 * header.pages as u64 {
        Ok(header)
    } else {
        Err(RebaseError::Refused(Refusal::SizesDiffer))
    }
}

/// The first bytes of a diff of this size.
pub(crate) fn judge_diff(alloc: Global, size: u64, front: &[u8]) -> Result<DiffHeader, RebaseError>
    ensures judged { (given : List ℕ) → front.now ≡ take 64 given → size ≡ length given → StartJudged given result }
    ensures header { IfOk result (λ h. IsHeader h) }
    ensures cause { (n : ℕ) → RebaseCause result n n }
{
    match DiffHeader::read(alloc, front) {
        Ok(header) => size_diff(size, header),
        Err(why) => Err(refused_by(why)),
    }
}

fn size_diff(size: u64, header: DiffHeader) -> Result<DiffHeader, RebaseError>
    requires { IsHeader header }
    ensures judged { (given : List ℕ) → Begins (take 64 given) header → size ≡ length given → StartJudged given result }
    ensures header { IfOk result (λ h. IsHeader h) }
    ensures cause { (n : ℕ) → RebaseCause result n n }
{
    if size == DiffHeader::SIZE as u64 + header.size_behind() {
        Ok(header)
    } else {
        Err(RebaseError::Refused(Refusal::BadField))
    }
}

/// The runs of a diff, by the front of a file that has as many bytes as its header says: the header and the table.
pub(crate) fn judge_table(
    alloc: Global,
    header: DiffHeader,
    bytes: &[u8],
) -> Result<Items<Run>, RebaseError>
    requires { length bytes.now ≡ 64 + table_size header }
    ensures judged { (given : List ℕ) → bytes.now ≡ take (64 + table_size header) given →
        Begins (take 64 given) header → length given ≡ 64 + size_behind header → TableJudged given header result }
    ensures runs { IfOk result (λ runs. AreRunsOf header runs) }
    ensures table { IfOk result (λ runs. IsTrue (is_table header runs)) }
    ensures cause { (n : ℕ) → RebaseCause result n n }
{
    match read_table(alloc, &header, &bytes[DiffHeader::SIZE..]) {
        Ok(runs) => Ok(runs),
        Err(ReadError::Bad) => Err(RebaseError::Refused(Refusal::BadField)),
        Err(ReadError::Memory) => Err(RebaseError::OutOfMemory),
    }
}
