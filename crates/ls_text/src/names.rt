// A table of names, which gives equal texts one id.
ghost use Rattle.std.specs.Prelude.{◌≡◌, ℕ, List, [], map, length, Some, slice_get, IfOk, OnOk, OnErr};
ghost use Rattle.ls_text.specs.Texts.{Grows, HasEachOnce, IsIdOf, interned, text_at};

use crate::{NameId, NoMemory};
use indexmap::IndexSet;
use std::alloc::Global;
use std::marker::Model;

/// A table of names. Contracts see it as the list of their texts, of which the id counts from 0.
///
/// It only grows, so an id keeps its text. A text is found by its hash.
#[derive(Drop)]
pub struct Names {
    alloc: Global,
    texts: IndexSet<Vec<u8>>,
}

impl Model for Names {
    ghost Value = { List (List ℕ) };

    ghost view = { λ n. map (λ t. t.items) n.texts.keys };
}

impl Names {
    /// A table without names. It takes no memory.
    pub fn new(alloc: Global) -> Self
        ensures { result ≡ [] }
    {
        Names {
            alloc,
            texts: IndexSet::new(alloc),
        }
    }

    /// The id of a text, which is added where the table hasn't it.
    pub fn intern(&mut self, text: &[u8]) -> Result<NameId, NoMemory>
        ensures id { IfOk result (λ id. IsIdOf self.new text.now id.0) }
        ensures table { OnOk result (self.new ≡ interned self.old text.now) }
        ensures grows { Grows self.old self.new }
        ensures err { OnErr result (self.new ≡ self.old) }
    {
        // A set says of its length that no two of its texts are equal.
        let _count = self.texts.len();
        if let Some((index, _)) = self.texts.get_full(text) {
            return Ok(NameId(index as u64));
        }
        let copy = Vec::from_slice(self.alloc, text)?;
        let (index, _) = self.texts.insert_full(copy)?;
        Ok(NameId(index as u64))
    }

    /// The text of a name; an empty one where the table doesn't have the name.
    pub fn text(&self, id: NameId) -> &[u8]
        ensures text { result.now ≡ text_at self.now id.0 }
        ensures once { HasEachOnce self.now }
    {
        let _count = self.texts.len();
        match self.texts.get_index(id.0 as usize) {
            Some(text) => text,
            None => &[],
        }
    }

    /// A table of its own with the same ids.
    pub fn copy(&self) -> Result<Names, NoMemory>
        ensures { IfOk result (λ copy. copy ≡ self.now) }
    {
        Ok(Names {
            alloc: self.alloc,
            texts: self.texts.clone()?,
        })
    }
}
