// Things that are configured by their ids.
ghost use Rattle.std.specs.Prelude.{◌≡◌, ◌↔◌, [], length, IsTrue, IfOk, OnOk, OnErr};
ghost use Rattle.std.specs.List.{find, position};
ghost use Rattle.std.specs.Option.{option_copied};
ghost use Rattle.vm_config.specs.Named.{changed_in, has_id, has_named, put_in};

use std::alloc::{AllocError, Global};
use std::marker::Model;

/// What is configured by its id.
pub trait Named: Drop {
    ghost use Rattle.std.specs.Prelude.{◌≡◌, List, ℕ, IfOk};

    /// What a PATCH gives of it, with its id.
    type Patch: Drop;

    ghost id_of: { Self → List ℕ };

    ghost named_by: { Self.Patch → List ℕ };

    ghost patched: { Self.Patch → Self → Self };

    fn id(&self) -> &str
        ensures { result.now ≡ id_of self.now };

    /// The id that a PATCH names.
    fn named_by(patch: &Self::Patch) -> &str
        ensures { result.now ≡ named_by patch.now };

    /// Replaces what a PATCH gives.
    fn patch(&mut self, patch: Self::Patch)
        ensures { self.new ≡ patched patch self.old };

    fn copy(&self, alloc: Global) -> Result<Self, AllocError>
        ensures { IfOk result (λ copy. copy ≡ self.now) };
}

/// Such things in the order of their first PUT, which contracts see as a list.
#[derive(Drop)]
pub struct NamedList<T> {
    things: Vec<T>,
}

impl<T> Model for NamedList<T> {
    ghost use Rattle.std.specs.Prelude.{List};

    ghost Value = { List T };

    ghost view = { λ l. l.things.items };
}

impl<T> NamedList<T> {
    /// None.
    pub fn new(alloc: Global) -> NamedList<T>
        ensures { result ≡ [] }
    {
        NamedList {
            things: Vec::new(alloc),
        }
    }

    /// These, in this order.
    pub fn from_vec(things: Vec<T>) -> NamedList<T>
        ensures { result ≡ things.items }
    {
        NamedList { things }
    }

    /// All of them, in their order.
    pub fn into_vec(self) -> Vec<T>
        ensures { result.items ≡ self }
    {
        self.things
    }

    pub fn as_slice(&self) -> &[T]
        ensures { result.now ≡ self.now }
    {
        self.things.as_slice()
    }

    pub fn len(&self) -> usize
        ensures { result ≡ length self.now }
    {
        self.things.len()
    }

    pub fn is_empty(&self) -> bool
        ensures { IsTrue result ↔ (self.now ≡ []) }
    {
        self.things.is_empty()
    }
}

impl<T: Named> NamedList<T> {
    /// A copy of these.
    pub fn copy_of(alloc: Global, things: &[T]) -> Result<NamedList<T>, AllocError>
        ensures { IfOk result (λ copy. copy ≡ things.now) }
    {
        let mut copies = Vec::new(alloc);
        for thing in things {
            copies.push(thing.copy(alloc)?)?;
        }
        Ok(NamedList { things: copies })
    }

    /// Whether there is one of this id.
    pub fn has(&self, id: &str) -> bool
        ensures { result ≡ has_named T.id_of self.now id.now }
    {
        self.things.iter().any(|thing| thing.id() == id)
    }

    /// The one of this id.
    pub fn find(&self, id: &str) -> Option<&T>
        ensures { option_copied result ≡ find (has_id T.id_of id.now) self.now }
    {
        self.things.iter().find(|thing| thing.id() == id)
    }

    /// Puts one in the place of the one of its id, or last. An `Err` changes nothing.
    pub fn put(&mut self, thing: T) -> Result<(), AllocError>
        ensures ok { OnOk result (self.new ≡ put_in T.id_of self.old thing) }
        ensures err { OnErr result (self.new ≡ self.old) }
    {
        match place_of(&self.things, thing.id()) {
            Some(place) => self.things[place] = thing,
            None => self.things.push(thing)?,
        }
        Ok(())
    }

    /// Replaces what a PATCH gives of the one that it names.
    pub fn patch(&mut self, patch: T::Patch)
        ensures { self.new ≡ changed_in T.id_of (T.named_by patch) (T.patched patch) self.old }
    {
        if let Some(place) = place_of(&self.things, T::named_by(&patch)) {
            self.things[place].patch(patch);
        }
    }
}

/// The place of the one of an id.
pub fn place_of<T: Named>(things: &[T], id: &str) -> Option<usize>
    ensures { result ≡ position (has_id T.id_of id.now) things.now }
{
    things.iter().position(|thing| thing.id() == id)
}
