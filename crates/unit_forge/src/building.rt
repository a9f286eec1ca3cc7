// The units of keys: each one's own result, and all of them together.
ghost use Rattle.std.specs.Prelude.{◌≡◌, Ok, IfOk, IfErr};
ghost use Rattle.std.specs.List.{AllZip};
ghost use Rattle.unit_build.specs.Building.{built};
ghost use Rattle.unit_forge.specs.Results.{IsResultOf, all_of, RefusesFirst};

use ls_text::Refusal;
use module_registry::Key;
use rayon::prelude::*;
use std::alloc::{AllocError, Global};
use std::thread::Threads;
use typed_ir::Unit;
use unit_build::build;

// The own result of the job of each key, in the order of the keys. Each may be made on a thread of its own.
pub(crate) fn each_result(
    rt: &(impl Threads + Sync),
    alloc: Global,
    keys: &[Key],
) -> Result<Vec<Result<Unit, Refusal>>, AllocError>
    ensures { IfOk result (λ rs. AllZip (λ k r. IsResultOf (built k.job) r) keys.now rs.items) }
{
    keys.par_iter()
        .with_min_len(1)
        .map(
            |key: &Key| -> Result<Unit, Refusal>
                ensures { IsResultOf (built key.now.job) result }
            { build(alloc, key.job()) },
        )
        .collect(rt, alloc)
}

// The units of these results, or the first refusal among them, or want of memory.
#[tactic(auto, using(crate::proofs::Together::one_more))]
pub(crate) fn all_units(
    alloc: Global,
    results: Vec<Result<Unit, Refusal>>,
) -> Result<Vec<Unit>, Refusal>
    ensures units { IfOk result (λ us. all_of results.items ≡ Ok us.items) }
    ensures refused { IfErr result (λ e. RefusesFirst e (all_of results.items)) }
{
    let mut units = Vec::new(alloc);
    for result in results {
        let unit = result?;
        units.push(unit)?;
    }
    Ok(units)
}
