// Lines of a text that comes in pieces.
ghost use Rattle.std.specs.Prelude.{◌≡◌, ◌≤◌, ◌++◌, [], drop, length, take, IfOk, OnErr, OnOk};
ghost use Rattle.script_words.specs.Ends.{LacksEnd};
ghost use Rattle.script_text.specs.Reader.{Gives, IsFirst, IsNext, Shortens, Takes};

use crate::item::Item;
use crate::reading::{LONGEST, read_line};
use script_words::end_from;
use std::alloc::{AllocError, Global};
use std::marker::Model;

/// What a reader gives: an item; a line that is none of a script's; or nothing, where no line is whole.
#[derive(Drop)]
pub enum Next {
    Line(Item),
    Bad,
    Nothing,
}

/// Contracts see the bytes that are held: what came and was not given. Of a line that is too long they hold only
/// as much as tells so.
#[derive(Drop)]
pub struct LineReader {
    alloc: Global,
    bytes: Vec<u8>,
    // So many bytes were given.
    at: usize,
    // Behind those, so many are known to have no LF.
    searched: usize,
}

impl Model for LineReader {
    ghost use Rattle.std.specs.Prelude.{◌+◌, ◌≤◌, List, ℕ, drop, length};
    ghost use Rattle.script_words.specs.Ends.{LacksEnd};

    ghost Value = { List ℕ };

    ghost view = { λ r. drop r.at r.bytes.items };

    ghost invariant = { λ r. (r.at + r.searched ≤ length r.bytes.items)
        × LacksEnd (drop r.at r.bytes.items) r.searched };
}

impl LineReader {
    /// A reader that holds nothing.
    pub fn new(alloc: Global) -> LineReader
        ensures { result ≡ [] }
    {
        LineReader {
            alloc,
            bytes: Vec::new(alloc),
            at: 0,
            searched: 0,
        }
    }

    /// How many bytes are held.
    pub fn held(&self) -> usize
        ensures { result ≡ length self.now }
    {
        self.bytes.len() - self.at
    }

    /// Takes the next piece of the text, and lets go of the lines that were given. An `Err` changes nothing
    /// of what is held.
    pub fn feed(&mut self, piece: &[u8]) -> Result<(), AllocError>
        ensures ok { OnOk result (Takes self.old piece.now self.new) }
        ensures err { OnErr result (self.new ≡ self.old) }
    {
        cut_out(&mut self.bytes, 0, self.at);
        self.at = 0;
        self.bytes.extend_from_slice(piece)?;
        self.searched = shorten(&mut self.bytes, self.searched);
        Ok(())
    }

    /// Gives the first line that is whole. An `Err` leaves it there.
    pub fn next(&mut self) -> Result<Next, AllocError>
        ensures ok { IfOk result (λ next. Gives self.old next self.new) }
        ensures err { OnErr result (self.new ≡ self.old) }
    {
        let first = first_of(self.alloc, self.bytes.split_at(self.at).1, self.searched)?;
        self.at += first.used;
        self.searched = first.searched;
        Ok(first.next)
    }
}

/// What is given first, how many bytes it takes, and how many of those behind it are known to have no LF.
#[derive(Drop)]
pub struct First {
    next: Next,
    used: usize,
    searched: usize,
}

fn first_of(alloc: Global, held: &[u8], searched: usize) -> Result<First, AllocError>
    requires within { searched ≤ length held.now }
    requires lacks { LacksEnd held.now searched }
    ensures { IfOk result (λ first. IsFirst held.now first) }
{
    let end = end_from(held, searched);
    if end == held.len() {
        return Ok(First {
            next: Next::Nothing,
            used: 0,
            searched: end,
        });
    }
    let next = next_of(alloc, &held[..end])?;
    Ok(First {
        next,
        used: end + 1,
        searched: 0,
    })
}

fn next_of(alloc: Global, line: &[u8]) -> Result<Next, AllocError>
    ensures { IfOk result (λ next. IsNext line.now next) }
{
    match read_line(alloc, line)? {
        Some(item) => Ok(Next::Line(item)),
        None => Ok(Next::Bad),
    }
}

// Lets go of what the first line has beyond one byte too many, and says how many of the first bytes have no LF.
fn shorten(bytes: &mut Vec<u8>, searched: usize) -> usize
    requires within { searched ≤ length bytes.old.items }
    requires lacks { LacksEnd bytes.old.items searched }
    ensures { Shortens bytes.old.items bytes.new.items result }
{
    let end = end_from(bytes, searched);
    if end <= LONGEST + 1 {
        return end;
    }
    cut_out(bytes, LONGEST + 1, end);
    LONGEST + 1
}

// Lets go of the bytes from one index up to another.
fn cut_out(bytes: &mut Vec<u8>, from: usize, to: usize)
    requires order { from ≤ to }
    requires within { to ≤ length bytes.old.items }
    ensures { bytes.new.items ≡ take from bytes.old.items ++ drop to bytes.old.items }
{
    bytes.drain(from..to);
}
