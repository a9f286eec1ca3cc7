// The jobs of a tree of instances.
ghost use Rattle.std.specs.Prelude.{◌<◌, All, IfOk, length, map};
ghost use Rattle.ls_text.specs.Texts.{Grows};
ghost use Rattle.ls_text.specs.declared.name_id.NameId.{NameId};
ghost use Rattle.ls_text.specs.Answers.{Answers};
ghost use Rattle.unit_jobs.specs.JobViews.{job_view};
ghost use Rattle.unit_jobs.specs.Jobs.{tree_jobs};

use crate::modules::modules_by_name;
use crate::naming::all_named;
use crate::preparing::all_prepared;
use crate::shapes::shapes_within;
use ls_text::{Names, Refusal};
use module_registry::BuildJob;
use std::alloc::Global;
use typed_ir::InstanceTree;
use verilog_ast::Module;

/// The job of each instance of a tree, in their order: its module as it is used there, with the names of what its generate blocks declare
/// (IEEE Std 1364-2005, 12.1 to 12.5). Of several modules of one name it is the first, and instances of one module share it. The cost is
/// linear in what the instances' modules unroll to.
///
/// Faults, the first of, instance by instance: 20 NoModule at the edit, with the name of the module; those of unrolling it under the
/// values of its parameters, which elaboration has found before. Else want of memory. The table of names keeps all it has.
#[tactic(auto, using(crate::proofs::InRows::tree_by_rows))]
pub fn jobs_of(
    alloc: Global,
    names: &mut Names,
    modules: Vec<Module>,
    tree: &InstanceTree,
) -> Result<Vec<BuildJob>, Refusal>
    ensures jobs { Answers result (λ js. map (job_view names.new) js.items) (tree_jobs names.old modules.items tree.now.instances.items) }
    ensures named { IfOk result (λ js. All (λ j. All (λ (n : NameId). n.0 < length names.new) j.names) js.items) }
    ensures grows { Grows names.old names.new }
{
    let table = modules_by_name(alloc, modules)?;
    let rows = shapes_within(alloc, &tree.instances)?;
    let unnamed = all_prepared(alloc, names, &table, rows, &tree.instances)?;
    let jobs = all_named(alloc, names, unnamed)?;
    Ok(jobs)
}
