// Instances to their jobs, with names that are texts.
ghost use Rattle.std.specs.Prelude.{◌≡◌, ◌∷◌, [], map, IfOk};
ghost use Rattle.ls_text.specs.declared.at.At.TheVariants.{Edit};
ghost use Rattle.ls_text.specs.Answers.{Answers};
ghost use Rattle.unit_jobs.specs.Jobs.{instance_job, module_called, or_no_module};
ghost use Rattle.unit_jobs.specs.Rows.{jobs_in_rows, row_of};
ghost use Rattle.unit_jobs.specs.TableViews.{modules_of, shared_module};
ghost use Rattle.unit_jobs.specs.UnnamedViews.{unnamed_view};

use crate::block_names::block_texts;
use crate::module_table::ModuleTable;
use crate::unnamed_job::UnnamedJob;
use ls_text::{At, Fault, NameId, NameList, Names, NoMemory, Refusal};
use std::alloc::Global;
use std::sync::Arc;
use typed_ir::{ChildShape, ConstList, Instance, ShapeList};
use verilog_ast::Module;

// No module of this name: 20.
fn no_module(alloc: Global, name: NameId) -> Result<Fault, NoMemory>
    ensures { IfOk result (λ f. f ≡ record { code = 20; at = Edit; names = name ∷ [] }) }
{
    let mut names = Vec::new(alloc);
    names.push(name)?;
    Ok(Fault {
        code: 20,
        at: At::Edit,
        names: NameList::new(names),
    })
}

// The module of a name, which jobs share.
fn module_of(
    alloc: Global,
    table: &ModuleTable,
    name: NameId,
) -> Result<Arc<Module, Global>, Refusal>
    ensures { Answers result shared_module (or_no_module (module_called name.0 (modules_of table.now)) name) }
{
    match table.find(name) {
        Some(found) => Ok(found.clone()?),
        None => {
            let fault = no_module(alloc, name)?;
            Err(Refusal::Fault(fault))
        }
    }
}

// The job of an instance with these instances in it.
fn prepared(
    alloc: Global,
    names: &Names,
    table: &ModuleTable,
    one: &Instance,
    within: Vec<ChildShape>,
) -> Result<UnnamedJob, Refusal>
    ensures { Answers result unnamed_view (instance_job names.now (modules_of table.now) one.now within.items) }
{
    let found = module_of(alloc, table, one.of_module)?;
    let values = one.parameters.as_slice();
    let texts = block_texts(alloc, names, &found.body, values)?;
    let parameters = Vec::from_slice(alloc, values)?;
    Ok(UnnamedJob {
        module: found,
        parameters: ConstList::new(parameters),
        clock: one.clock,
        children: ShapeList::new(within),
        texts,
    })
}

/// The jobs of instances, of which these rows have the shapes of the instances in each, or the first fault. No name is added before all
/// texts stand.
#[tactic(auto, using(crate::proofs::InRows::instances))]
pub fn all_prepared(
    alloc: Global,
    names: &Names,
    table: &ModuleTable,
    rows: Vec<Vec<ChildShape>>,
    instances: &[Instance],
) -> Result<Vec<UnnamedJob>, Refusal>
    ensures { Answers result (λ jobs. map unnamed_view jobs.items)
        (jobs_in_rows names.now (modules_of table.now) (map row_of rows.items) instances.now) }
{
    let mut jobs = Vec::new(alloc);
    let mut rest = instances;
    for within in rows {
        let Some((one, behind)) = rest.split_first() else {
            return Ok(jobs);
        };
        let job = prepared(alloc, names, table, one, within)?;
        jobs.push(job)?;
        rest = behind;
    }
    Ok(jobs)
}
