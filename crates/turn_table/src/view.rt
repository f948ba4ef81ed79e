// What a seat knows. No value of these types is made.
use crate::held::Held;
use std::collections::LinkedList;
use vm_types::Entry;

/// An act, at the index of its place in the table: its entry, and how it left the place.
pub struct Noted<P> {
    pub place: usize,
    pub entry: Entry,
    pub left: P,
}

/// A round's number, and how the places stood when it began.
pub struct Round<P> {
    pub number: u64,
    pub opens: LinkedList<Held<P>>,
}

/// A turn: at which place, how many acts it had, and how it was found.
pub struct Turn<P> {
    pub place: usize,
    pub index: u64,
    pub held: Held<P>,
}

/// A seat's parts of the right to act, the turn that it has, the round, and all that was done from this seat in it.
pub struct View<P> {
    pub parts: u32,
    pub turn: Option<Turn<P>>,
    pub entries: LinkedList<Noted<P>>,
    pub round: Round<P>,
}
