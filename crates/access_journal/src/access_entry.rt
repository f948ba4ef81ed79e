// The entry of an access.
ghost use Rattle.std.specs.Prelude.{◌≡◌, ◌≤◌, false, length, MatchOption};
ghost use Rattle.access_journal.specs.Accesses.{is_access, is_made, op_of, reply_of};

use std::marker::Model;
use vm_types::{ActorId, Entry, GuestAddr, Op, Piece, PlaceId, Reply};

/// What a hart did: it read bytes, as a fetch does too, or wrote them.
#[derive(Clone, Copy, Drop)]
pub enum Access {
    Read,
    Write,
}

/// An access of a hart to a page, of eight bytes at most, that was made. Contracts see its entry.
#[derive(Drop)]
pub struct AccessEntry {
    stamp: u64,
    before: u64,
    at: GuestAddr,
    bytes: [u8; 8],
    page: u32,
    hart: u8,
    len: u8,
    access: Access,
}

impl Model for AccessEntry {
    ghost use Rattle.std.specs.Prelude.{◌≤◌, ◌≡◌, length, take};
    ghost use Rattle.vm_types.specs.declared.entry.Entry.{Entry};
    ghost use Rattle.access_journal.specs.Accesses.{entry_of};

    ghost Value = { Entry };

    ghost view = { λ a. entry_of a.stamp a.before a.hart a.page a.access a.at (take a.len a.bytes) };

    ghost invariant = { λ a. (a.len ≤ 8) × (length a.bytes ≡ 8) };
}

// The access that this reply makes of an op, with its address and bytes, if it is one of eight bytes at most.
fn access_of(op: &Op, reply: &Reply) -> Option<(Access, GuestAddr, Piece)>
    ensures { MatchOption result
        (is_made op.now reply.now ≡ false)
        (λ made. (op.now ≡ op_of made.0 made.1 made.2) × (reply.now ≡ reply_of made.0 made.2) × (length made.2 ≤ 8)) }
{
    match (op, reply) {
        (Op::Read { at, len }, Reply::Bytes(piece)) if *len <= 8 && *len == piece.len() => {
            Some((Access::Read, *at, *piece))
        }
        (Op::Write { at, piece }, Reply::Done) if piece.len() <= 8 => {
            Some((Access::Write, *at, *piece))
        }
        _ => None,
    }
}

impl AccessEntry {
    /// The entry in little room; `None` if it is of no such access.
    pub fn of(entry: &Entry) -> Option<AccessEntry>
        ensures { MatchOption result (is_access entry.now ≡ false) (λ small. small ≡ entry.now) }
    {
        let (ActorId::Hart(hart), PlaceId::Page(page)) = (entry.actor, entry.place) else {
            return None;
        };
        let (access, at, piece) = access_of(&entry.op, &entry.reply)?;
        let mut bytes = [0; 8];
        bytes[..piece.len()].copy_from_slice(piece.as_slice());
        Some(AccessEntry {
            stamp: entry.stamp,
            before: entry.before,
            at,
            bytes,
            page,
            hart,
            len: piece.len() as u8,
            access,
        })
    }

    /// The entry.
    pub fn entry(&self) -> Entry
        ensures { result ≡ self.now }
    {
        let bytes = Piece::from_slice(&self.bytes[..usize::from(self.len)]);
        let (op, reply) = match self.access {
            Access::Read => (
                Op::Read {
                    at: self.at,
                    len: bytes.len(),
                },
                Reply::Bytes(bytes),
            ),
            Access::Write => (
                Op::Write {
                    at: self.at,
                    piece: bytes,
                },
                Reply::Done,
            ),
        };
        Entry {
            stamp: self.stamp,
            before: self.before,
            actor: ActorId::Hart(self.hart),
            place: PlaceId::Page(self.page),
            op,
            reply,
        }
    }
}
