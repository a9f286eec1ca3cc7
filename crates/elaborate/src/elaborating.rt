// From the top of a design down to its instances, depth first.
ghost use Rattle.std.specs.Prelude.{◌≡◌, [], ◌∷◌, ◌++◌, length, map, nat_le, if◌then◌else◌, None, Some, Ok, OnOk};
ghost use Rattle.verilog_ast.specs.Views.{declaration_of as plain_module};
ghost use Rattle.ls_text.specs.Answers.{Answers, Leads};
ghost use Rattle.module_names.specs.Modules as m;
ghost use Rattle.module_names.specs.Views.{modules_of};
ghost use Rattle.elaborate.specs.Elaborated as e;
ghost use Rattle.elaborate.specs.Jobs.{AreJobs, IsOf, Keeps, standing_of, all_view, job_view};
ghost use Rattle.elaborate.specs.Visits.{visited};
ghost use Rattle.clock_rules.specs.Views.{clock_view, clocks_view, id_of};
ghost use Rattle.elaborate.specs.Views.{child_of, visited_of};

use crate::child_instance::ChildInstance;
use crate::growing::Growing;
use crate::job::Job;
use crate::jobs::{job, new_job};
use crate::limits::Limits;
use crate::standing::StandingInstance;
use crate::visited::Visited;
use indexmap::IndexMap;
use ls_text::{NameId, Refusal};
use module_names::{ModuleNames, Modules};
use std::alloc::Global;
use std::sync::Arc;
use typed_ir::InstanceId;
use width_rules::refused_at;

// Whether a module is on the path.
fn is_on(path: &[NameId], name: NameId) -> bool
    ensures { result ≡ e.is_on (map id_of path.now) name.0 }
{
    for one in path {
        if *one == name {
            return true;
        }
    }
    false
}

// The number of one instance more, where there may be so many.
fn next_instance(all: usize, most: u32) -> Option<InstanceId>
    ensures { result ≡ if nat_le most all then None else Some all }
{
    match u32::try_from(all) {
        Ok(here) => {
            if most <= here {
                None
            } else {
                Some(InstanceId(here))
            }
        }
        Err(_) => None,
    }
}

fn first_clock(clocks: &[Option<NameId>]) -> Option<NameId>
    ensures { clock_view result ≡ e.first_clock (clocks_view clocks.now) }
{
    match clocks.split_first() {
        Some((first, _)) => *first,
        None => None,
    }
}

fn clocks_behind(clocks: &[Option<NameId>]) -> &[Option<NameId>]
    ensures { clocks_view result.now ≡ e.clocks_behind (clocks_view clocks.now) }
{
    match clocks.split_first() {
        Some((_, rest)) => rest,
        None => clocks,
    }
}

// The instances in an instance that was visited.
#[cycle(visit)]
fn within(
    t: &mut Growing,
    modules: &Modules<'_>,
    left: u32,
    above: InstanceId,
    visited: &Visited,
) -> Result<(), Refusal>
    requires { AreJobs t.old.limits.turns (modules_of modules.now) t.old.jobs.entries }
    ensures answer { Leads result (map standing_of t.new.all.items)
        (e.within (e.child_at t.old.limits (modules_of modules.now) left (map id_of t.old.path.items) above)
        (visited_of visited.now) (map standing_of t.old.all.items)) }
    ensures kept { OnOk result (Keeps (modules_of modules.now) t.old t.new) }
{
    let mut clocks = visited.clocks.as_slice();
    for child in visited.checks.children.as_slice() {
        let clock = first_clock(clocks);
        clocks = clocks_behind(clocks);
        instance(t, modules, left, above, child, clock)?;
    }
    Ok(())
}

// An instance of a module that there is, of which this is the number: its visit, and what stands below it.
#[cycle(visit)]
fn of_module(
    t: &mut Growing,
    modules: &Modules<'_>,
    left: u32,
    above: InstanceId,
    of: &ModuleNames<'_>,
    child: &ChildInstance,
    clock: Option<NameId>,
    here: InstanceId,
) -> Result<(), Refusal>
    requires jobs { AreJobs t.old.limits.turns (modules_of modules.now) t.old.jobs.entries }
    requires module { m.module_named child.now.instantiated.name.0 (modules_of modules.now) ≡ Some (plain_module of.now.body.now) }
    requires here { here ≡ length t.old.all.items }
    ensures answer { Leads result (map standing_of t.new.all.items)
        (e.of_module t.old.limits (modules_of modules.now) above (e.child_at t.old.limits (modules_of modules.now) left (map id_of t.old.path.items ++ child.now.instantiated.name.0 ∷ []))
        (child_of child.now) (clock_view clock) (map standing_of t.old.all.items) (plain_module of.now.body.now)) }
    ensures kept { OnOk result (Keeps (modules_of modules.now) t.old t.new) }
{
    let name = child.instantiated.name;
    let job = job(
        t.alloc,
        t.limits.turns,
        modules,
        &mut t.jobs,
        of,
        name,
        &child.overrides,
        clock,
    )?;
    t.all.push(StandingInstance {
        parent: Some(above),
        block: child.block,
        name: child.name,
        job: job.clone()?,
    })?;
    t.path.push(name)?;
    within(t, modules, left, here, &job.visited)?;
    t.path.pop();
    Ok(())
}

// An instance in the one at `above`: 23 where no level is left or its module is on the path, 40 where there are enough; then its visit.
#[cycle(visit)]
#[tactic(auto, using(crate::proofs::Levels::children))]
fn instance(
    t: &mut Growing,
    modules: &Modules<'_>,
    left: u32,
    above: InstanceId,
    child: &ChildInstance,
    clock: Option<NameId>,
) -> Result<(), Refusal>
    requires { AreJobs t.old.limits.turns (modules_of modules.now) t.old.jobs.entries }
    ensures answer { Leads result (map standing_of t.new.all.items)
        (e.child_at t.old.limits (modules_of modules.now) left (map id_of t.old.path.items) above (child_of child.now) (clock_view clock) (map standing_of t.old.all.items)) }
    ensures kept { OnOk result (Keeps (modules_of modules.now) t.old t.new) }
{
    let name = child.instantiated;
    if left == 0 {
        return Err(refused_at(t.alloc, 23, name));
    }
    if is_on(&t.path, name.name) {
        return Err(refused_at(t.alloc, 23, name));
    }
    let Some(here) = next_instance(t.all.len(), t.limits.instances) else {
        return Err(refused_at(t.alloc, 40, name));
    };
    match modules.find(name.name) {
        None => Err(refused_at(t.alloc, 20, name)),
        Some(of) => of_module(t, modules, left - 1, above, of, child, clock, here),
    }
}

// The top, whose visit this is, and its instances.
fn below_top(
    t: &mut Growing,
    modules: &Modules<'_>,
    of: &ModuleNames<'_>,
    clock: Option<NameId>,
    job: &Arc<Job, Global>,
) -> Result<(), Refusal>
    requires jobs { AreJobs t.old.limits.turns (modules_of modules.now) t.old.jobs.entries }
    requires all { t.old.all.items ≡ [] }
    requires path { t.old.path.items ≡ [] }
    requires of { IsOf job.now.value of.now.body.now.name.name [] clock }
    requires found { visited t.old.limits.turns (modules_of modules.now) (Some t.old.limits.top_ports) (plain_module of.now.body.now) [] (clock_view clock) ≡ Ok (job_view job.now) }
    ensures { Leads result (map standing_of t.new.all.items) (e.from_top t.old.limits (modules_of modules.now) (clock_view clock) (plain_module of.now.body.now)) }
{
    let name = of.body.name;
    t.all.push(StandingInstance {
        parent: None,
        block: None,
        name,
        job: job.clone()?,
    })?;
    t.path.push(name.name)?;
    within(t, modules, t.limits.levels, InstanceId(0), &job.visited)
}

// The instances of a design whose top is this one, of which this is the visit.
fn all_below(
    alloc: Global,
    limits: Limits,
    modules: &Modules<'_>,
    of: &ModuleNames<'_>,
    clock: Option<NameId>,
    job: &Arc<Job, Global>,
) -> Result<Vec<StandingInstance>, Refusal>
    requires of { IsOf job.now.value of.now.body.now.name.name [] clock }
    requires found { visited limits.turns (modules_of modules.now) (Some limits.top_ports) (plain_module of.now.body.now) [] (clock_view clock) ≡ Ok (job_view job.now) }
    ensures { Answers result all_view (e.from_top limits (modules_of modules.now) (clock_view clock) (plain_module of.now.body.now)) }
{
    let mut t = Growing {
        alloc,
        limits,
        jobs: IndexMap::new(alloc),
        all: Vec::new(alloc),
        path: Vec::new(alloc),
    };
    below_top(&mut t, modules, of, clock, job)?;
    Ok(t.all)
}

/// The instances of a design whose top is this one, depth first: the top, and each other behind the one that it stands in.
///
/// Faults: those of the top's visit, and of its instances in item order, each 23 RecursiveInstance, 40 TooMany, and then its visit. Else
/// want of memory.
pub fn from_top(
    alloc: Global,
    limits: Limits,
    modules: &Modules<'_>,
    of: &ModuleNames<'_>,
    clock: Option<NameId>,
) -> Result<Vec<StandingInstance>, Refusal>
    ensures { Answers result all_view (e.from_top limits (modules_of modules.now) (clock_view clock) (plain_module of.now.body.now)) }
{
    let most = Some(limits.top_ports);
    let name = of.body.name.name;
    let job = new_job(alloc, limits.turns, modules, most, of, name, &[], clock)?;
    all_below(alloc, limits, modules, of, clock, &job)
}
