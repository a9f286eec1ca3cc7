// Names and blocks: what a name stands for, declarations, and where blocks begin and end.
ghost use Rattle.std.specs.Prelude.{◌≡◌, ◌≤◌, ◌∷◌, [], ℕ, true, length, IfOk, OnErr};
ghost use Rattle.width_rules.specs.Found.{meaning_of, is_held};
ghost use Rattle.width_rules.specs.Entries.{scope_of, around};
ghost use Rattle.width_rules.specs.Scopes.{Unknown, with_name};

use crate::covered::Covered;
use crate::entry::Entry;
use crate::scope::Scope;
use indexmap::IndexMap;
use ls_text::{NameId, NoMemory};
use std::alloc::Global;
use std::collections::VecDeque;

impl Scope {
    /// No name in reach, and no block.
    pub fn new(alloc: Global) -> Scope
        ensures names { (name : ℕ) → scope_of result name ≡ Unknown }
        ensures around { around result ≡ [] }
    {
        Scope {
            names: IndexMap::new(alloc),
            covered: VecDeque::new(alloc),
        }
    }

    /// What a name stands for; `Unknown` where nothing declares it.
    pub fn find(&self, name: NameId) -> Entry
        ensures { meaning_of result ≡ scope_of self.now name.0 }
    {
        match self.names.get(&name) {
            Some(entry) => *entry,
            None => Entry::Unknown,
        }
    }

    /// Declares a name in the innermost block; an earlier meaning is covered, up to the block's end. Want of memory is `NoMemory`: then
    /// nothing has changed.
    pub fn declare(&mut self, name: NameId, entry: Entry) -> Result<(), NoMemory>
        ensures names { IfOk result (λ _. scope_of self.new ≡ with_name name.0 (meaning_of entry) (scope_of self.old)) }
        ensures around { around self.new ≡ around self.old }
        ensures same { OnErr result (scope_of self.new ≡ scope_of self.old) }
    {
        if self.covered.is_empty() {
            self.names.insert(name, entry)?;
            return Ok(());
        }
        let before = self.find(name);
        self.covered.push_front(Covered::Name(name, before))?;
        match self.names.insert(name, entry) {
            Ok(_) => Ok(()),
            Err(_) => {
                let _taken = self.covered.pop_front();
                Err(NoMemory)
            }
        }
    }

    /// Begins a block. Want of memory is `NoMemory`: then none begins.
    pub fn open_block(&mut self) -> Result<(), NoMemory>
        ensures names { scope_of self.new ≡ scope_of self.old }
        ensures around { IfOk result (λ _. around self.new ≡ scope_of self.old ∷ around self.old) }
        ensures none { OnErr result (around self.new ≡ around self.old) }
    {
        self.covered.push_front(Covered::Block)?;
        Ok(())
    }

    // A name stands for this again. It takes no memory, since the name has its place.
    fn uncover(&mut self, name: NameId, entry: Entry)
        requires { is_held self.old.names.entries name.0 ≡ true }
        ensures names { scope_of self.new ≡ with_name name.0 (meaning_of entry) (scope_of self.old) }
        ensures covered { self.new.covered.items ≡ self.old.covered.items }
    {
        match self.names.insert(name, entry) {
            Ok(_) => {}
            Err(_) => {}
        }
    }

    /// Ends the innermost block: each name stands again for what it stood for where the block began. It takes no memory.
    pub fn close_block(&mut self)
        requires { 1 ≤ length (around self.old) }
        ensures { around self.old ≡ scope_of self.new ∷ around self.new }
    {
        while let Some(covered) = self.covered.pop_front() {
            match covered {
                Covered::Block => return,
                Covered::Name(name, entry) => self.uncover(name, entry),
            }
        }
    }
}
