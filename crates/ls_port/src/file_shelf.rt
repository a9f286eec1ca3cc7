// The edge: the files below the folder that the program is run in, as a shelf.
ghost use Rattle.std.specs.Prelude.{◌≡◌, ◌≤◌, false, None, vec_len, IfOk, IsErrOf};
ghost use Rattle.ls_port.specs.declared.shelf_refusal.ShelfRefusal.TheVariants.{Failed as ShelfFailed};
ghost use Rattle.ls_port.specs.Answers.{ReadAdds};
ghost use Rattle.ls_port.specs.Causes.{HasShelfCause};
ghost use Rattle.ls_port.specs.FileNames.{stays_below};

use crate::file_names::stays_below;
use crate::opened_text::whole_text;
use crate::{Shelf, ShelfRefusal};
use std::alloc::Global;
use std::fs::File;
use std::rt::Files;

/// The files below the folder that the program is run in. Each error of the host counts as a fault, and so does a name that leaves
/// the folder or that no file of a design has: nothing is opened then. It tells no answers.
#[derive(Drop)]
pub struct FileShelf<F: Files + Drop> {
    files: F,
    faults: u64,
}

impl<F: Files + Drop> FileShelf<F> {
    /// The shelf of these files, which hasn't failed yet. A `&HostRuntime` stands for the host's.
    pub fn new(files: F) -> Self
        ensures files { result.files ≡ files }
        ensures faults { result.faults ≡ 0 }
    {
        FileShelf { files, faults: 0 }
    }
}

// The text of this name.
fn text_below<F: Files>(alloc: Global, files: &F, name: &[u8]) -> Result<Vec<u8>, ShelfRefusal>
    ensures bound { IfOk result (λ text. vec_len text ≤ 4194305) }
    ensures outside { stays_below name.now ≡ false → IsErrOf result ShelfFailed }
{
    if !stays_below(name) {
        return Err(ShelfRefusal::Failed);
    }
    let Ok(path) = str::from_utf8(name) else {
        return Err(ShelfRefusal::Failed);
    };
    match File::open(files, path) {
        Ok(mut file) => whole_text(alloc, &mut file),
        Err(_) => Err(ShelfRefusal::Failed),
    }
}

impl<F: Files + Drop> Shelf for FileShelf<F> {
    ghost answers = { λ _. None };

    ghost faults = { λ s. s.faults };

    /// Gives the file of this name. A name that leaves the folder fails, and nothing is opened then.
    fn read(&mut self, alloc: Global, name: &[u8]) -> Result<Vec<u8>, ShelfRefusal>
        ensures bound { IfOk result (λ text. vec_len text ≤ 4194305) }
        ensures added { ReadAdds None None result name.now }
        ensures cause { HasShelfCause self.old.faults self.new.faults result }
        ensures outside { stays_below name.now ≡ false → IsErrOf result ShelfFailed }
        ensures files { self.new.files ≡ self.old.files }
    {
        let answer = text_below(alloc, &self.files, name);
        if let Err(ShelfRefusal::Failed) = answer {
            self.faults = self.faults.saturating_add(1);
        }
        answer
    }
}
