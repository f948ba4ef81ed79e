// What is left to read.
ghost use Rattle.std.specs.Prelude.{
  ◌≡◌,
  ◌↔◌,
  [],
  IfSome,
  IfNone,
  IsTrue,
  Some,
  None,
  length,
  take,
  drop,
  if◌then◌else◌,
};
ghost use Rattle.std.specs.Str.{bytes_eq};
ghost use Rattle.file_format.specs.Readers.{front_at};

use std::marker::Model;

/// The bytes that are left to read.
#[derive(Drop)]
pub struct Input<'a> {
    left: &'a [u8],
}

impl<'a> Model for Input<'a> {
    ghost use Rattle.std.specs.Prelude.{List, ℕ};

    ghost Value = { List ℕ };

    ghost view = { λ r. r.left.now };
}

impl<'a> Input<'a> {
    pub fn new(bytes: &'a [u8]) -> Input<'a>
        ensures { result ≡ bytes.now }
    {
        Input { left: bytes }
    }

    /// The next so many bytes. None where there are fewer, and then nothing is taken.
    pub fn take(&mut self, count: usize) -> Option<&'a [u8]>
        ensures some { IfSome result (λ front. front_at count self.old ≡ Some (front.now, self.new)) }
        ensures none { IfNone result (front_at count self.old ≡ None) }
        ensures kept { IfNone result (self.new ≡ self.old) }
    {
        let left = self.left;
        if left.len() < count {
            return None;
        }
        let (front, rest) = left.split_at(count);
        self.left = rest;
        Some(front)
    }

    /// Takes these bytes, where they are the next; else nothing is taken.
    pub fn skip(&mut self, expected: &[u8]) -> bool
        ensures test { result ≡ bytes_eq (take (length expected.now) self.old) expected.now }
        ensures taken { self.new ≡ (if result then drop (length expected.now) self.old else self.old) }
    {
        let left = self.left;
        match left.strip_prefix(expected) {
            None => false,
            Some(rest) => {
                self.left = rest;
                true
            }
        }
    }

    pub fn is_empty(&self) -> bool
        ensures { IsTrue result ↔ (self.now ≡ []) }
    {
        self.left.is_empty()
    }

    /// How many bytes are left.
    pub fn len(&self) -> usize
        ensures { result ≡ length self.now }
    {
        self.left.len()
    }
}
