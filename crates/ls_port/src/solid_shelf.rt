// A shelf in memory that fails only at a name that it doesn't hold.
ghost use Rattle.std.specs.Prelude.{◌≡◌, ◌≤◌, Some, None, [], vec_len, IfOk, OnOk, IsErrOf};
ghost use Rattle.ls_port.specs.Answers.{ReadAdds};
ghost use Rattle.ls_port.specs.Causes.{HasShelfCause};

use crate::given_text::{give, given_of};
use crate::{NamedText, Shelf, ShelfAnswer, ShelfRefusal};
use ls_text::TextBytes;
use std::alloc::Global;

/// Texts in memory as a shelf, which fails only at a name that it doesn't hold. It may run out of memory.
#[derive(Drop)]
pub struct SolidShelf {
    texts: Vec<NamedText>,
    answered: Vec<ShelfAnswer>,
    faults: u64,
}

impl SolidShelf {
    ghost use Rattle.ls_port.specs.Shelves.{solid_answers};

    /// A shelf of these texts, which hasn't answered yet. Of several texts of one name it gives the first.
    pub fn new(alloc: Global, texts: Vec<NamedText>) -> Self
        ensures texts { result.texts ≡ texts }
        ensures answers { solid_answers result ≡ [] }
        ensures faults { result.faults ≡ 0 }
    {
        SolidShelf {
            texts,
            answered: Vec::new(alloc),
            faults: 0,
        }
    }

    /// Its answers so far, oldest first.
    pub fn answers(&self) -> &[ShelfAnswer]
        ensures { result.now ≡ solid_answers self.now }
    {
        &self.answered
    }

    // Answers `Failed` and counts it, or that memory ran out.
    pub(crate) fn fail(&mut self, alloc: Global, name: &[u8]) -> Result<Vec<u8>, ShelfRefusal>
        ensures never { OnOk result ⊥ }
        ensures added { ReadAdds (Some (solid_answers self.old)) (Some (solid_answers self.new)) result name.now }
        ensures cause { HasShelfCause self.old.faults self.new.faults result }
        ensures told { self.new.texts ≡ self.old.texts }
    {
        let name = TextBytes::new(Vec::from_slice(alloc, name)?);
        self.answered.push(ShelfAnswer::Failed(name))?;
        self.faults = self.faults.saturating_add(1);
        Err(ShelfRefusal::Failed)
    }
}

impl Shelf for SolidShelf {
    ghost use Rattle.ls_port.specs.declared.shelf_refusal.ShelfRefusal.TheVariants.{Failed as ShelfFailed};
    ghost use Rattle.ls_port.specs.Shelves.{solid_answers, solid_next};

    ghost answers = { λ s. Some (solid_answers s) };

    ghost faults = { λ s. s.faults };

    /// Gives the first text of this name, and fails where it holds none.
    fn read(&mut self, alloc: Global, name: &[u8]) -> Result<Vec<u8>, ShelfRefusal>
        ensures bound { IfOk result (λ text. vec_len text ≤ 4194305) }
        ensures added { ReadAdds (Some (solid_answers self.old)) (Some (solid_answers self.new)) result name.now }
        ensures cause { HasShelfCause self.old.faults self.new.faults result }
        ensures given { IfOk result (λ text. solid_next self.old name.now ≡ Some text.items) }
        ensures missing { IsErrOf result ShelfFailed → solid_next self.old name.now ≡ None }
        ensures told { self.new.texts ≡ self.old.texts }
    {
        match given_of(name, &self.texts) {
            Some(text) => Ok(give(alloc, &mut self.answered, name, text)?),
            None => self.fail(alloc, name),
        }
    }
}
