// The files that a block names.
ghost use Rattle.std.specs.Prelude.{◌≡◌, ◌++◌, ◌∷◌, [], OnOk, nat_eq, ℕ};
ghost use Rattle.indexmap.specs.IndexSet.{contains};
ghost use Rattle.command_read.specs.Known.{is_known};

use crate::{FileLine, LoadLine};
use indexmap::IndexSet;
use ls_text::{NameId, NoMemory};
use std::alloc::Global;

/// The files that a block gives and those that it loads, each in line order. Whether one has a name is found by the hash of the name's id.
#[derive(Drop)]
pub struct NamedFiles {
    pub(crate) given: Vec<FileLine>,
    pub(crate) loaded: Vec<LoadLine>,
    known: IndexSet<u64>,
    ghost found: { (id : ℕ) → contains nat_eq known id ≡ is_known id given.items loaded.items },
}

impl NamedFiles {
    /// No file. It takes no memory.
    pub fn new(alloc: Global) -> NamedFiles
        ensures given { result.given.items ≡ [] }
        ensures loaded { result.loaded.items ≡ [] }
    {
        NamedFiles {
            given: Vec::new(alloc),
            loaded: Vec::new(alloc),
            known: IndexSet::new(alloc),
        }
    }

    /// Whether a file of that name is given or loaded.
    pub fn has(&self, name: NameId) -> bool
        ensures { result ≡ is_known name.0 self.now.given.items self.now.loaded.items }
    {
        self.known.contains(&name.0)
    }

    /// One file more that is given.
    pub fn give(&mut self, file: FileLine) -> Result<(), NoMemory>
        ensures given { OnOk result (self.new.given.items ≡ self.old.given.items ++ file ∷ []) }
        ensures loaded { OnOk result (self.new.loaded.items ≡ self.old.loaded.items) }
    {
        let name = file.file.name;
        self.given.push(file)?;
        match self.known.insert(name.0) {
            Ok(_) => Ok(()),
            Err(_) => {
                let _last = self.given.pop();
                Err(NoMemory)
            }
        }
    }

    /// One file more that is loaded.
    pub fn load(&mut self, load: LoadLine) -> Result<(), NoMemory>
        ensures loaded { OnOk result (self.new.loaded.items ≡ self.old.loaded.items ++ load ∷ []) }
        ensures given { OnOk result (self.new.given.items ≡ self.old.given.items) }
    {
        self.loaded.push(load)?;
        match self.known.insert(load.name.0) {
            Ok(_) => Ok(()),
            Err(_) => {
                let _last = self.loaded.pop();
                Err(NoMemory)
            }
        }
    }

    /// Gives both lists back: of those that are given and those that are loaded. It takes no memory.
    pub fn into_lists(self) -> (Vec<FileLine>, Vec<LoadLine>)
        ensures given { result.0 ≡ self.given }
        ensures loaded { result.1 ≡ self.loaded }
    {
        (self.given, self.loaded)
    }
}
