// Units made on several threads, and how many.
ghost use Rattle.std.specs.Thread.{IsSync};
ghost use Rattle.unit_build.specs.Building.{built};
ghost use Rattle.unit_rows.specs.Views.{made_by};

use ls_text::Refusal;
use module_registry::{Forge, Key};
use std::alloc::Global;
use std::thread::Threads;
use typed_ir::Unit;
use unit_forge::RayonForge;

/// Makes units as a `RayonForge` does, and counts those that it made.
#[derive(Drop)]
pub struct CountingForge {
    pub(crate) inner: RayonForge,
    pub(crate) made: u64,
}

impl CountingForge {
    /// Without a unit that was made.
    pub fn new(alloc: Global) -> CountingForge {
        CountingForge {
            inner: RayonForge::new(alloc),
            made: 0,
        }
    }

    /// How many units it made.
    pub fn count(&self) -> u64 {
        self.made
    }
}

impl<R: Threads + Sync> Forge<R> for CountingForge {
    ghost builds = { built };

    ghost made = { made_by };

    // threads share it
    ghost ready = { λ _. IsSync R.row };

    fn make(&mut self, rt: &R, alloc: Global, keys: &[Key]) -> Result<Vec<Unit>, Refusal> {
        let units = self.inner.make(rt, alloc, keys)?;
        self.made = self.made.saturating_add(units.len() as u64);
        Ok(units)
    }
}
