// Units of keys, on several threads.
ghost use Rattle.std.specs.Prelude.{◌≡◌, IfOk};
ghost use Rattle.std.specs.Thread.{IsSync};
ghost use Rattle.unit_build.specs.Building.{built};
ghost use Rattle.unit_forge.specs.Views.{jobs_made};

use crate::building::{all_units, each_result};
use crate::rayon_forge::RayonForge;
use ls_text::Refusal;
use module_registry::{Forge, Key};
use std::alloc::{AllocError, Global};
use std::thread::Threads;
use typed_ir::Unit;

// Copies of keys, which share their texts and jobs.
fn copies(alloc: Global, keys: &[Key]) -> Result<Vec<Key>, AllocError>
    ensures { IfOk result (λ ks. ks.items ≡ keys.now) }
{
    let mut copies = Vec::new(alloc);
    for key in keys {
        copies.push(key.clone()?)?;
    }
    Ok(copies)
}

impl<R: Threads + Sync> Forge<R> for RayonForge {
    ghost builds = { built };

    ghost made = { jobs_made };

    // threads share it
    ghost ready = { λ _. IsSync R.row };

    #[tactic(auto, using(crate::proofs::Together::jobs_joined))]
    fn make(&mut self, rt: &R, alloc: Global, keys: &[Key]) -> Result<Vec<Unit>, Refusal> {
        let mut copies = copies(alloc, keys)?;
        self.made.reserve(keys.len())?;
        let results = each_result(rt, alloc, keys)?;
        let units = all_units(alloc, results)?;
        self.made.append(&mut copies)?;
        Ok(units)
    }
}
