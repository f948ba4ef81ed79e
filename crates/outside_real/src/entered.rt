// The names that are on disk in their folders.
use std::alloc::{AllocError, Global};

// A name more than so many, and the others are forgotten.
const MOST: usize = 16;

/// Names of files whose folders had them on disk when they were last looked at.
#[derive(Drop)]
pub(crate) struct Entered {
    names: Vec<String>,
}

impl Entered {
    pub(crate) fn new(alloc: Global) -> Entered {
        Entered {
            names: Vec::new(alloc),
        }
    }

    pub(crate) fn has(&self, name: &str) -> bool {
        self.names.iter().any(|kept| kept.as_str() == name)
    }

    /// Keeps a name. Without memory it doesn't, so that the folder is synced again.
    pub(crate) fn keep(&mut self, alloc: Global, name: &str) {
        if !self.has(name) {
            let _kept = self.push(alloc, name);
        }
    }

    fn push(&mut self, alloc: Global, name: &str) -> Result<(), AllocError> {
        if self.names.len() >= MOST {
            self.names.clear();
        }
        let name = String::from_str(alloc, name)?;
        self.names.push(name)?;
        Ok(())
    }
}
