// The file: a header and the body.
ghost use Rattle.std.specs.Prelude.{◌≡◌, ◌++◌, ◌∷◌, IsTrue, IfOk, length};
ghost use Rattle.file_format.specs.Kinds.{number32};
ghost use Rattle.file_format.specs.Identities.{identity as named, is_numbered};
ghost use Rattle.file_format.specs.Starts.{Decodes};
ghost use Rattle.file_format.specs.Versions.{version_of, current_version};
ghost use Rattle.file_format.specs.Reading.{Takes};
ghost use Rattle.snap_state.specs.Files.{contents, magic, Encodes, Found, is_accepted};
ghost use Rattle.snap_state.specs.Valid.{is_valid};

use crate::copy::{StateCopy, read_copy};
use crate::valid::is_valid;
use file_format::{
    DecodeError, Input, ReadError, Stored, Version, is_closed, is_numbered, is_other, version_of,
};
use std::alloc::{AllocError, Global};
use vm_types::Identity;

/// How many bytes the header of a state file has.
pub const STATE_HEADER: usize = 32;

/// What stands behind its gate: "RVFCSTA", and the version.
pub fn state_magic(version: Version) -> [u8; 11]
    ensures { result ≡ magic version }
{
    match version {
        Version::One => [82, 86, 70, 67, 83, 84, 65, 1, 0, 0, 0],
        Version::Two => [82, 86, 70, 67, 83, 84, 65, 2, 0, 0, 0],
    }
}

/// A copy, under the identity of its snapshot.
#[derive(Drop)]
pub struct Saved {
    pub identity: Identity,
    pub copy: StateCopy,
}

fn is_accepted(size: usize, left: usize, len: u32, identity: Identity, copy: &StateCopy) -> bool
    ensures { result ≡ is_accepted size left len identity copy.now }
{
    left == 0 && len as u64 + 20 == size as u64 && is_numbered(identity) && is_valid(copy)
}

fn read_contents(
    alloc: Global,
    version: Version,
    input: &mut Input,
) -> Result<(u32, (Identity, StateCopy)), ReadError>
    ensures { Takes (contents version) input.old input.new result }
{
    let (len, identity) = Stored::read(alloc, input)?;
    let copy = read_copy(alloc, version, input)?;
    Ok((len, (identity, copy)))
}

// What stands behind gate and magic.
fn contents_at(alloc: Global, version: Version, rest: &[u8]) -> Result<Saved, ReadError>
    ensures { Found version rest.now result }
{
    let mut input = Input::new(rest);
    let (len, (identity, copy)) = read_contents(alloc, version, &mut input)?;
    if is_accepted(rest.len(), input.len(), len, identity, &copy) {
        Ok(Saved { identity, copy })
    } else {
        Err(ReadError::Bad)
    }
}

/// The copy that a file's bytes are the file of, or the first refusal that fits. It takes no more memory than the bytes
/// say that there is to keep.
pub fn decode(alloc: Global, bytes: &[u8]) -> Result<Saved, DecodeError>
    ensures { Decodes 32 (magic (version_of bytes.now)) Encodes bytes.now result }
{
    if is_closed(bytes, STATE_HEADER) {
        return Err(DecodeError::GateClosed);
    }
    let version = version_of(bytes);
    if is_other(bytes, &state_magic(version)) {
        return Err(DecodeError::WrongMagic);
    }
    let (_, rest) = bytes.split_at(12);
    match contents_at(alloc, version, rest) {
        Ok(saved) => Ok(saved),
        Err(ReadError::Bad) => Err(DecodeError::BadField),
        Err(ReadError::Memory) => Err(DecodeError::OutOfMemory),
    }
}

// What stands behind the gate: the rest of the header, and this body.
fn with_header(alloc: Global, identity: Identity, body: &[u8]) -> Result<Vec<u8>, AllocError>
    ensures len { IfOk result (λ _. number32.Fits (length body.now)) }
    ensures identity { IfOk result (λ _. named.Fits identity) }
    ensures bytes { IfOk result (λ behind. behind.items ≡
        named.puts identity (number32.puts (length body.now) (magic current_version)) ++ body.now) }
{
    let Ok(len) = u32::try_from(body.len()) else {
        return Err(AllocError);
    };
    let mut behind = Vec::new(alloc);
    behind.extend_from_slice(&state_magic(Version::Two))?;
    len.write(&mut behind)?;
    identity.write(&mut behind)?;
    behind.extend_from_slice(body)?;
    Ok(behind)
}

/// The bytes behind the gate of the file of this copy under this identity, whose number is from 1 to below 2^63.
pub fn encode_behind_gate(
    alloc: Global,
    identity: Identity,
    copy: &StateCopy,
) -> Result<Vec<u8>, AllocError>
    requires valid { IsTrue (is_valid copy.now) }
    requires numbered { IsTrue (is_numbered identity) }
    ensures encodes { IfOk result (λ behind. Encodes (1 ∷ behind.items) (record { identity = identity; copy = copy.now })) }
    ensures version { IfOk result (λ behind. version_of (1 ∷ behind.items) ≡ current_version) }
{
    let mut body = Vec::new(alloc);
    copy.write(&mut body)?;
    let behind = with_header(alloc, identity, &body)?;
    Ok(behind)
}
