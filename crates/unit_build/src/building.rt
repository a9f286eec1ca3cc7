// The unit of a job.
ghost use Rattle.std.specs.Prelude.{◌≡◌, [], map, Ok, IfOk, IfErr};
ghost use Rattle.driver_rules.specs.Driven.{AreNarrowItems, HasRoles, IsDriven};
ghost use Rattle.ls_text.specs.Answers.{Answers};
ghost use Rattle.gen_unroll.specs.Views.{step_of};
ghost use Rattle.module_registry.specs.UnitViews.{built_of};
ghost use Rattle.typed_ir.specs.Items.{items_of, unit_of};
ghost use Rattle.gen_unroll.specs.ModuleViews.{table_in};
ghost use Rattle.gen_unroll.specs.Numbers.{module_table};
ghost use Rattle.width_rules.specs.Faults.{IsFirst};
ghost use Rattle.unit_build.specs.Building as b;
ghost use Rattle.unit_build.specs.FromSteps.{unit_from};

use crate::placing::place_items;
use crate::settling::settled;
use crate::splitting::parts_of;
use crate::walking::size_steps;
use driver_rules::drivers;
use gen_unroll::{ModuleSignals, Step, Unrolled, module_signals, overrides_of, unroll};
use ls_text::Refusal;
use module_registry::BuildJob;
use std::alloc::Global;
use typed_ir::{TypedItems, Unit};

// The items of the module of a job with these signals and these steps, or the first fault of an item.
fn sized(
    alloc: Global,
    job: &BuildJob,
    signals: &ModuleSignals,
    settled: &[bool],
    steps: &[Step<'_>],
) -> Result<TypedItems, Refusal>
    ensures faultless { IfOk result (λ _. b.job_faults job.now (table_in signals.now) settled.now (map step_of steps.now) ≡ []) }
    ensures items { IfOk result (λ p. items_of p ≡ b.placed_items job.now (table_in signals.now) settled.now (map step_of steps.now)) }
    ensures shapes { IfOk result (λ p. p.shapes ≡ job.now.children) }
    ensures fault { IfErr result (IsFirst (b.job_faults job.now (table_in signals.now) settled.now (map step_of steps.now))) }
{
    let module = &job.module;
    let list = size_steps(
        alloc,
        &module.body,
        signals,
        settled,
        job.children.as_slice(),
        steps,
    )?;
    let items = place_items(alloc, job, signals, list)?;
    Ok(items)
}

// The same, or the first fault of what drives what.
fn checked(
    alloc: Global,
    job: &BuildJob,
    signals: &ModuleSignals,
    settled: &[bool],
    steps: &[Step<'_>],
) -> Result<TypedItems, Refusal>
    ensures faultless { IfOk result (λ _. b.unit_faults job.now (table_in signals.now) settled.now (map step_of steps.now) ≡ []) }
    ensures items { IfOk result (λ p. items_of p ≡ b.placed_items job.now (table_in signals.now) settled.now (map step_of steps.now)) }
    ensures shapes { IfOk result (λ p. p.shapes ≡ job.now.children) }
    ensures unit { IfOk result (λ p. AreNarrowItems (items_of p) → HasRoles (items_of p) → IsDriven (unit_of (items_of p))) }
    ensures fault { IfErr result (IsFirst (b.unit_faults job.now (table_in signals.now) settled.now (map step_of steps.now))) }
{
    let items = sized(alloc, job, signals, settled, steps)?;
    match drivers(alloc, &items) {
        Ok(_) => Ok(items),
        Err(refusal) => Err(refusal),
    }
}

// The unit of a job with these signals and these steps.
fn unit_with(
    alloc: Global,
    job: &BuildJob,
    signals: &ModuleSignals,
    settled: &[bool],
    steps: &[Step<'_>],
) -> Result<Unit, Refusal>
    requires { module_table (b.module_of job.now) (map step_of steps.now) ≡ Ok (table_in signals.now) }
    ensures { Answers result built_of (b.unit_with job.now (table_in signals.now) settled.now (map step_of steps.now)) }
{
    let items = checked(alloc, job, signals, settled, steps)?;
    let parts = parts_of(alloc, items)?;
    Ok(Unit { parts })
}

// The unit of a job with these steps, or the first fault of a range, of an item or of what drives what.
fn unit_in(alloc: Global, job: &BuildJob, steps: &[Step<'_>]) -> Result<Unit, Refusal>
    ensures { Answers result built_of (unit_from job.now (map step_of steps.now)) }
{
    let module = &job.module;
    let signals = module_signals(alloc, &module.body, steps)?;
    let settled = settled(alloc, &module.body, &signals, steps)?;
    unit_with(alloc, job, &signals, &settled, steps)
}

/// The unit of a job: its module by itself, under these values of its parameters, with the shapes of the instances in it.
///
/// Faults, the first one: those of unrolling and of ranges, which elaboration finds before; then item by item in the order of the text those
/// of its expressions (29, 25, 26, 31, 32) and only then those of its targets (33) and of a second default (30); then 34 in the order of
/// the items; then block by block 36 and 35. Else want of memory.
#[tactic(auto, using(crate::proofs::Unrolling::stops, crate::proofs::Unrolling::goes))]
pub fn build(alloc: Global, job: &BuildJob) -> Result<Unit, Refusal>
    ensures { Answers result built_of (b.built job.now) }
{
    let module = &job.module;
    let overrides = overrides_of(alloc, &module.body, job.parameters.as_slice())?;
    let Unrolled {
        steps,
        blocks: _,
        fault,
    } = unroll(alloc, &module.body, &overrides)?;
    match fault {
        Some(fault) => Err(Refusal::Fault(fault)),
        None => unit_in(alloc, job, &steps),
    }
}
