// Visits of modules, each made once.
ghost use Rattle.std.specs.Prelude.{◌≡◌, map, None, Some, IfOk, OnOk, ⊤};
ghost use Rattle.std.specs.Bool.{MatchBool};
ghost use Rattle.ls_text.specs.Answers.{Answers};
ghost use Rattle.gen_unroll.specs.Views.{override_view};
ghost use Rattle.verilog_ast.specs.Views.{declaration_of as plain_module};
ghost use Rattle.module_names.specs.Modules as m;
ghost use Rattle.module_names.specs.Views.{modules_of};
ghost use Rattle.elaborate.specs.Jobs.{IsOf, AreJobs, job_view};
ghost use Rattle.clock_rules.specs.Views.{clock_view};
ghost use Rattle.elaborate.specs.Visits.{visited};

use crate::job::Job;
use crate::visit_key::VisitKey;
use crate::visiting::visit;
use indexmap::IndexMap;
use ls_text::{NameId, Refusal};
use module_names::{ModuleNames, Modules};
use std::alloc::Global;
use std::sync::Arc;
use typed_ir::Const;

// Whether two overrides are equal.
fn same_override(left: Option<Const>, right: Option<Const>) -> bool
    ensures { MatchBool result (override_view left ≡ override_view right) ⊤ }
{
    match (left, right) {
        (None, None) => true,
        (Some(left), Some(right)) => {
            left.bits.width == right.bits.width
                && left.bits.value == right.bits.value
                && left.signed == right.signed
        }
        _ => false,
    }
}

// Whether two lists of overrides are equal.
fn same_overrides(left: &[Option<Const>], right: &[Option<Const>]) -> bool
    ensures { MatchBool result (map override_view left.now ≡ map override_view right.now) ⊤ }
{
    let mut rest = right;
    for one in left {
        let Some((first, behind)) = rest.split_first() else {
            return false;
        };
        if !same_override(*one, *first) {
            return false;
        }
        rest = behind;
    }
    rest.is_empty()
}

// Whether two clock ports are equal.
fn same_clock(left: Option<NameId>, right: Option<NameId>) -> bool
    ensures { MatchBool result (clock_view left ≡ clock_view right) ⊤ }
{
    match (left, right) {
        (None, None) => true,
        (Some(left), Some(right)) => left == right,
        _ => false,
    }
}

// Whether a kept job is that of this module under these overrides and with this clock port.
fn is_job(job: &Job, name: NameId, overrides: &[Option<Const>], clock: Option<NameId>) -> bool
    ensures { MatchBool result (IsOf job.now name overrides.now clock) ⊤ }
{
    job.instantiated == name
        && same_clock(job.clock, clock)
        && same_overrides(&job.overrides, overrides)
}

// A number behind another one in a digest.
fn mixed(digest: u64, number: u64) -> u64 {
    digest
        .wrapping_mul(0x517c_c1b7_2722_0a95)
        .wrapping_add(number)
}

// A number that equal overrides share: of each its width with its sign, or 0 where it is none, and the two halves of its value.
fn digest(overrides: &[Option<Const>]) -> u64 {
    let mut digest = 0u64;
    for one in overrides {
        match one {
            None => digest = mixed(digest, 0),
            Some(value) => {
                let width = u64::from(value.bits.width);
                digest = mixed(digest, if value.signed { width + 256 } else { width });
                digest = mixed(digest, (value.bits.value >> 64) as u64);
                digest = mixed(digest, (value.bits.value & u128::from(u64::MAX)) as u64);
            }
        }
    }
    digest
}

/// A new visit of a module under these overrides and with this clock port; a top has at most so many ports.
pub fn new_job(
    alloc: Global,
    turns: u32,
    modules: &Modules<'_>,
    most: Option<usize>,
    of: &ModuleNames<'_>,
    name: NameId,
    overrides: &[Option<Const>],
    clock: Option<NameId>,
) -> Result<Arc<Job, Global>, Refusal>
    ensures of { IfOk result (λ job. IsOf job.value name overrides.now clock) }
    ensures answer { Answers result job_view
        (visited turns (modules_of modules.now) most (plain_module of.now.body.now) (map override_view overrides.now) (clock_view clock)) }
{
    let given = Vec::from_slice(alloc, overrides)?;
    let visited = visit(alloc, turns, modules, most, of, overrides, clock)?;
    let job = Job {
        instantiated: name,
        overrides: given,
        clock,
        visited,
    };
    Ok(Arc::new(alloc, job)?)
}

/// The visit of a module under these overrides and with this clock port: the one that is kept, or a new one, which is kept then.
#[tactic(auto, using(crate::proofs::Kept::jobs))]
pub fn job(
    alloc: Global,
    turns: u32,
    modules: &Modules<'_>,
    jobs: &mut IndexMap<VisitKey, Arc<Job, Global>>,
    of: &ModuleNames<'_>,
    name: NameId,
    overrides: &[Option<Const>],
    clock: Option<NameId>,
) -> Result<Arc<Job, Global>, Refusal>
    requires jobs { AreJobs turns (modules_of modules.now) jobs.old.entries }
    requires module { m.module_named name.0 (modules_of modules.now) ≡ Some (plain_module of.now.body.now) }
    ensures kept { OnOk result (AreJobs turns (modules_of modules.now) jobs.new.entries) }
    ensures of { IfOk result (λ job. IsOf job.value name overrides.now clock) }
    ensures answer { Answers result job_view
        (visited turns (modules_of modules.now) None (plain_module of.now.body.now) (map override_view overrides.now) (clock_view clock)) }
{
    let key = VisitKey {
        instantiated: name,
        clock,
        digest: digest(overrides),
    };
    if let Some(kept) = jobs.get(&key) {
        if is_job(kept, name, overrides, clock) {
            return Ok(kept.clone()?);
        }
    }
    let job = new_job(alloc, turns, modules, None, of, name, overrides, clock)?;
    jobs.insert(key, job.clone()?)?;
    Ok(job)
}
