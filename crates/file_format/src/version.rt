// The versions of state files and diffs.
ghost use Rattle.std.specs.Prelude.{◌≡◌, ◌≤◌, length};
ghost use Rattle.file_format.specs.Versions.{version, version_of};

use crate::error::ReadError;
use crate::input::Input;
use crate::stored::Stored;
use std::alloc::{AllocError, Global};

/// Which layout a state file or a diff has.
#[derive(Clone, Copy, Drop)]
pub enum Version {
    /// A diff has a page number and a page for each page; a state file has no sections.
    One,
    /// A diff has runs of pages, and no page of zeros; a state file has sections.
    Two,
}

#[tactic(auto, unfolding(crate::specs::Versions::version))]
impl Stored for Version {
    ghost format = { version };

    fn write(&self, out: &mut Vec<u8>) -> Result<(), AllocError> {
        match self {
            Version::One => 1u32.write(out),
            Version::Two => 2u32.write(out),
        }
    }

    fn read(alloc: Global, input: &mut Input) -> Result<Version, ReadError> {
        match u32::read(alloc, input)? {
            1 => Ok(Version::One),
            2 => Ok(Version::Two),
            _ => Err(ReadError::Bad),
        }
    }
}

/// The version that a file's bytes are read by: 2 where they say so, and else 1. Bytes that say neither are of no version.
pub fn version_of(bytes: &[u8]) -> Version
    requires { 12 ≤ length bytes.now }
    ensures { result ≡ version_of bytes.now }
{
    if bytes[8..12] == [2, 0, 0, 0] {
        Version::Two
    } else {
        Version::One
    }
}
