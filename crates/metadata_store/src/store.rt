// The store.
ghost use Rattle.std.specs.Prelude.{◌≡◌, false, Ok, IfOk, OnOk, OnErr, IfErr};
ghost use Rattle.serde_json.specs.Data.{null};
ghost use Rattle.serde_json.specs.View.{view};
ghost use Rattle.serde_json.specs.Written.{compact_text, has_float};
ghost use Rattle.metadata_store.specs.Store.{put, patched, GivesData, Refuses};

use crate::error::StoreError;
use crate::results;
use crate::tree::Tree;
use serde_json::Value;
use std::alloc::{AllocError, Global};
use std::marker::Model;
use vm_types::ByteList;

/// The metadata: `null`, or an object whose numbers are whole and whose compact text has at most 51,200 bytes.
#[derive(Drop)]
pub struct Store {
    value: Value,
    alloc: Global,
}

impl Model for Store {
    ghost use Rattle.std.specs.Prelude.{◌≡◌, false};
    ghost use Rattle.serde_json.specs.Data.{Data};
    ghost use Rattle.metadata_store.specs.Code.{data_code};
    ghost use Rattle.serde_json.specs.View as json;

    ghost Value = { Data };

    ghost coded = { data_code };

    ghost use Rattle.serde_json.specs.Written.{has_float};

    ghost view = { λ s. json.view s.value };

    ghost invariant = { λ s. has_float (json.view s.value) ≡ false };
}

impl Store {
    /// A store into which nothing was put: `null`.
    pub fn new(alloc: Global) -> Store
        ensures { result ≡ null }
    {
        Store {
            value: Value::Null,
            alloc,
        }
    }

    /// The store that a PUT of a body leaves, whatever was stored.
    ///
    /// `WrongKind`: the body is no object, or a number in it is no whole number of 64 bits, signed or not. `TooLarge`:
    /// its compact text has more than 51,200 bytes.
    pub fn of_put(alloc: Global, body: Tree) -> Result<Store, StoreError>
        ensures { GivesData result (put body) }
    {
        let value = results::put(alloc, body.into_value())?;
        Ok(Store { value, alloc })
    }

    /// The store that a patch makes of this one.
    ///
    /// `WrongKind`: the patch is none that `put` would take as a body. `StoreNotInitialized`: nothing was put yet.
    /// `TooLarge`: the compact text of what would be stored has more than 51,200 bytes.
    pub fn patched(&self, patch: &Tree) -> Result<Store, StoreError>
        ensures { GivesData result (patched self.now patch.now) }
    {
        let value = results::patched(self.alloc, &self.value, patch.value())?;
        Ok(Store {
            value,
            alloc: self.alloc,
        })
    }

    /// Replaces what is stored. An `Err` changes nothing.
    ///
    /// The errors are those of `of_put`.
    pub fn put(&mut self, body: Tree) -> Result<(), StoreError>
        ensures ok { OnOk result (put body ≡ Ok self.new) }
        ensures refused { IfErr result (λ e. Refuses e (put body)) }
        ensures err { OnErr result (self.new ≡ self.old) }
    {
        *self = Store::of_put(self.alloc, body)?;
        Ok(())
    }

    /// Merges a patch into what is stored. An `Err` changes nothing.
    ///
    /// The errors are those of `patched`.
    pub fn patch(&mut self, patch: &Tree) -> Result<(), StoreError>
        ensures ok { OnOk result (patched self.old patch.now ≡ Ok self.new) }
        ensures refused { IfErr result (λ e. Refuses e (patched self.old patch.now)) }
        ensures err { OnErr result (self.new ≡ self.old) }
    {
        *self = self.patched(patch)?;
        Ok(())
    }

    /// The compact text of what is stored: JSON without spaces, with keys in the order of their bytes.
    pub fn get(&self) -> Result<ByteList, AllocError>
        ensures { IfOk result (λ text. text ≡ compact_text self.now) }
    {
        let text = self.value.to_string(self.alloc)?;
        Ok(ByteList::from_vec(text.into_bytes()))
    }

    /// What is stored: no number in it is a float.
    pub fn value(&self) -> &Value
        ensures value { view result.now ≡ self.now }
        ensures whole { has_float self.now ≡ false }
    {
        &self.value
    }
}
