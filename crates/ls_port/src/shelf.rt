// Where files come from, by their names.
ghost use Rattle.std.specs.Prelude.{◌≤◌, ℕ, List, vec_len, IfOk};
ghost use Rattle.std.specs.declared.option.Option.{Option};
ghost use Rattle.ls_port.specs.declared.shelf_answer.ShelfAnswer.{ShelfAnswer};
ghost use Rattle.ls_port.specs.Answers.{ReadAdds};
ghost use Rattle.ls_port.specs.Causes.{HasShelfCause};

use crate::ShelfRefusal;
use std::alloc::Global;

/// Where files come from, by their names.
pub trait Shelf {
    /// Its answers so far, oldest first, where the shelf tells them.
    ghost answers: { Self → Option (List ShelfAnswer) };

    /// How often it has failed. The count never falls, and stands still at its type's end.
    ghost faults: { Self → ℕ };

    /// Reads the text of this name, at most 4,194,305 bytes of it: a longer one is cut there.
    ///
    /// What was given, or that the read failed, is added to the answers. At `Failed` the count of faults rises by one; every
    /// other answer leaves it. After `NoMemory` the answers are as before.
    fn read(&mut self, alloc: Global, name: &[u8]) -> Result<Vec<u8>, ShelfRefusal>
        ensures bound { IfOk result (λ text. vec_len text ≤ 4194305) }
        ensures added { ReadAdds (answers self.old) (answers self.new) result name.now }
        ensures cause { HasShelfCause (faults self.old) (faults self.new) result };
}
