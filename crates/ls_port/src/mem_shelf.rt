// A shelf in memory that fails at the calls that it is told, and at a name that it doesn't hold.
ghost use Rattle.std.specs.Prelude.{◌≡◌, ◌≤◌, ◌+◌, ◌-◌, ◌^◌, min, Some, None, [], vec_len, IfOk, IsErrOf};
ghost use Rattle.ls_port.specs.Answers.{ReadAdds};
ghost use Rattle.ls_port.specs.Causes.{HasShelfCause};

use crate::{NamedText, Shelf, ShelfAnswer, ShelfRefusal, SolidShelf};
use std::alloc::Global;

/// Texts in memory as a shelf, which fails at the calls that it is told, and at a name that it doesn't hold. It may run out of
/// memory.
#[derive(Drop)]
pub struct MemShelf {
    shelf: SolidShelf,
    fails: Vec<u64>,
    calls: u64,
}

impl MemShelf {
    ghost use Rattle.ls_port.specs.Shelves.{mem_answers};

    /// A shelf of these texts, which hasn't answered yet. Of several texts of one name it gives the first. The reads whose numbers,
    /// from 0, are in `fails` fail.
    pub fn new(alloc: Global, texts: Vec<NamedText>, fails: Vec<u64>) -> Self
        ensures texts { result.shelf.texts ≡ texts }
        ensures answers { mem_answers result ≡ [] }
        ensures fails { result.fails ≡ fails }
        ensures calls { result.calls ≡ 0 }
        ensures faults { result.shelf.faults ≡ 0 }
    {
        MemShelf {
            shelf: SolidShelf::new(alloc, texts),
            fails,
            calls: 0,
        }
    }

    /// Its answers so far, oldest first.
    pub fn answers(&self) -> &[ShelfAnswer]
        ensures { result.now ≡ mem_answers self.now }
    {
        self.shelf.answers()
    }
}

impl Shelf for MemShelf {
    ghost use Rattle.ls_port.specs.declared.shelf_refusal.ShelfRefusal.TheVariants.{Failed as ShelfFailed};
    ghost use Rattle.ls_port.specs.Shelves.{mem_answers, mem_next};

    ghost answers = { λ s. Some (mem_answers s) };

    ghost faults = { λ s. s.shelf.faults };

    /// Gives the first text of this name. It fails at a call that it was told, and where it holds no such text.
    fn read(&mut self, alloc: Global, name: &[u8]) -> Result<Vec<u8>, ShelfRefusal>
        ensures bound { IfOk result (λ text. vec_len text ≤ 4194305) }
        ensures added { ReadAdds (Some (mem_answers self.old)) (Some (mem_answers self.new)) result name.now }
        ensures cause { HasShelfCause self.old.shelf.faults self.new.shelf.faults result }
        ensures given { IfOk result (λ text. mem_next self.old name.now ≡ Some text.items) }
        ensures fails { IsErrOf result ShelfFailed → mem_next self.old name.now ≡ None }
        ensures calls { self.new.calls ≡ min (self.old.calls + 1) (2 ^ 64 - 1) }
        ensures told { self.new.fails ≡ self.old.fails }
        ensures texts { self.new.shelf.texts ≡ self.old.shelf.texts }
    {
        let call = self.calls;
        self.calls = self.calls.saturating_add(1);
        if self.fails.contains(&call) {
            return self.shelf.fail(alloc, name);
        }
        self.shelf.read(alloc, name)
    }
}
