// Ids, which contracts see as a list of texts.
ghost use Rattle.std.specs.Prelude.{◌≡◌, ◌++◌, [], ◌∷◌, length, IfOk, OnOk, OnErr};

use std::alloc::{AllocError, Global};
use std::marker::Model;
use vm_types::TextList;

/// Ids in their order.
#[derive(Drop)]
pub struct IdList {
    ids: Vec<TextList>,
}

impl Model for IdList {
    ghost use Rattle.std.specs.Prelude.{List, ℕ};

    ghost Value = { List (List ℕ) };

    ghost view = { λ l. l.ids.items };
}

impl IdList {
    /// None.
    pub fn new(alloc: Global) -> IdList
        ensures { result ≡ [] }
    {
        IdList {
            ids: Vec::new(alloc),
        }
    }

    /// Puts an id at the end. An `Err` changes nothing.
    pub fn push(&mut self, id: TextList) -> Result<(), AllocError>
        ensures ok { OnOk result (self.new ≡ self.old ++ id ∷ []) }
        ensures err { OnErr result (self.new ≡ self.old) }
    {
        self.ids.push(id)?;
        Ok(())
    }

    /// A copy of these.
    pub fn copy_of(alloc: Global, ids: &[TextList]) -> Result<IdList, AllocError>
        ensures { IfOk result (λ copy. copy ≡ ids.now) }
    {
        let mut copies = Vec::new(alloc);
        for id in ids {
            copies.push(TextList::copy_of(alloc, id.as_str())?)?;
        }
        Ok(IdList { ids: copies })
    }

    pub fn len(&self) -> usize
        ensures { result ≡ length self.now }
    {
        self.ids.len()
    }

    pub fn as_slice(&self) -> &[TextList]
        ensures { result.now ≡ self.now }
    {
        self.ids.as_slice()
    }
}
