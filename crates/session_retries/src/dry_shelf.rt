// A shelf that has no memory once.
ghost use Rattle.std.specs.Prelude.{None};

use ls_port::{Shelf, ShelfRefusal};
use std::alloc::Global;

/// A shelf whose call of this number, from 0, wants memory.
#[derive(Drop)]
pub struct DryShelf<F: Shelf> {
    pub shelf: F,
    pub calls: u64,
    pub dry: u64,
}

impl<F: Shelf> Shelf for DryShelf<F> {
    ghost answers = { λ _. None };

    ghost faults = { λ s. F.faults s.shelf };

    fn read(&mut self, alloc: Global, name: &[u8]) -> Result<Vec<u8>, ShelfRefusal> {
        let call = self.calls;
        self.calls = self.calls.saturating_add(1);
        if call == self.dry {
            return Err(ShelfRefusal::NoMemory);
        }
        self.shelf.read(alloc, name)
    }
}
