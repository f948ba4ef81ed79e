// The frames of a stream, from whatever parts it comes in.
ghost use Rattle.std.specs.Prelude.{◌≡◌, ◌≤◌, ◌<◌, ◌++◌, [], List, ℕ, length, IfOk, OnErr};
ghost use Rattle.link_frames.specs.Stream.{Feeds, IsBegun, IsBegun-prop, IsGiven, Stands, most_wanted, wanted_of};

use crate::coming::{Coming, Fed};
use crate::parts::{nothing, with_bytes};
use std::alloc::{AllocError, Global};
use std::mem::replace;

/// Reads a stream from a border between two frames on. It keeps one frame at most.
#[derive(Drop)]
pub struct FrameReader {
    alloc: Global,
    coming: Coming,
    ghost is_begun: { IsBegun coming } by { IsBegun-prop coming },
}

impl FrameReader {
    /// Nothing has come.
    pub fn new(alloc: Global) -> FrameReader
        ensures { Stands result.coming [] }
    {
        FrameReader {
            alloc,
            coming: nothing(alloc),
        }
    }

    /// How many bytes it takes next at most. No part of another frame is among so many.
    pub fn wanted(&self) -> usize
        ensures wanted { result ≡ wanted_of self.now.coming }
        ensures some { 0 < result }
        ensures most { result ≤ most_wanted }
    {
        match &self.coming {
            Coming::Length { bytes } => 4 - bytes.len(),
            Coming::Frame { count, bytes } => *count as usize - bytes.len(),
            Coming::Dropped { left, .. } => (*left as usize).min(1514),
        }
    }

    /// Takes the next bytes of the stream. After an `Err`, which is want of memory, it has lost its place there, and reads on as from a
    /// border between two frames.
    pub fn feed(&mut self, bytes: &[u8]) -> Result<Fed, AllocError>
        requires { length bytes.now ≤ wanted_of self.old.coming }
        ensures given { IfOk result IsGiven }
        ensures feeds { IfOk result (λ fed. (begun : List ℕ) → Stands self.old.coming begun →
            Feeds fed (begun ++ bytes.now) self.new.coming) }
        ensures lost { OnErr result (Stands self.new.coming []) }
    {
        let before = replace(&mut self.coming, nothing(self.alloc));
        let (fed, coming) = with_bytes(self.alloc, before, bytes)?;
        self.coming = coming;
        Ok(fed)
    }
}
