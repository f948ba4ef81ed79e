// Headers, which contracts see as a list of pairs.
ghost use Rattle.std.specs.Prelude.{◌≡◌, ◌++◌, [], ◌∷◌, length, OnOk, OnErr};

use std::alloc::{AllocError, Global};
use std::marker::Model;
use vm_types::ByteList;

/// Headers in their order, each a name as it came and a value without the white space around it.
#[derive(Drop)]
pub struct HeaderList {
    headers: Vec<(ByteList, ByteList)>,
}

impl Model for HeaderList {
    ghost use Rattle.http_stream.specs.Body.{Header};
    ghost use Rattle.std.specs.Prelude.{List};

    ghost Value = { List Header };

    ghost view = { λ h. h.headers.items };
}

impl HeaderList {
    /// No header.
    pub fn new(alloc: Global) -> HeaderList
        ensures { result ≡ [] }
    {
        HeaderList {
            headers: Vec::new(alloc),
        }
    }

    /// Puts a header at the end. An `Err` changes nothing.
    pub fn push(&mut self, name: ByteList, value: ByteList) -> Result<(), AllocError>
        ensures ok { OnOk result (self.new ≡ self.old ++ (name, value) ∷ []) }
        ensures err { OnErr result (self.new ≡ self.old) }
    {
        self.headers.push((name, value))?;
        Ok(())
    }

    pub fn len(&self) -> usize
        ensures { result ≡ length self.now }
    {
        self.headers.len()
    }

    pub fn as_slice(&self) -> &[(ByteList, ByteList)]
        ensures { result.now ≡ self.now }
    {
        self.headers.as_slice()
    }
}
