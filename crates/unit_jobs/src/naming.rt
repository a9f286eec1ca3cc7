// Texts of names to their numbers.
ghost use Rattle.std.specs.Prelude.{◌≡◌, ◌<◌, All, IfOk, length, map};
ghost use Rattle.ls_text.specs.Texts.{Grows};
ghost use Rattle.ls_text.specs.declared.name_id.NameId.{NameId};
ghost use Rattle.unit_jobs.specs.JobViews.{job_view};
ghost use Rattle.ls_text.specs.TextViews.{text_items, text_of};
ghost use Rattle.unit_jobs.specs.UnnamedViews.{unnamed_view};

use crate::unnamed_job::UnnamedJob;
use ls_text::{NameId, NameList, Names, NoMemory};
use module_registry::BuildJob;
use std::alloc::Global;

// The numbers of these texts, in their order.
#[tactic(auto, using(crate::proofs::Numbers::texts))]
fn numbers_of(alloc: Global, names: &mut Names, texts: &[Vec<u8>]) -> Result<Vec<NameId>, NoMemory>
    ensures texts { IfOk result (λ ids. map (text_of names.new) ids.items ≡ map text_items texts.now) }
    ensures named { IfOk result (λ ids. All (λ (n : NameId). n.0 < length names.new) ids.items) }
    ensures grows { Grows names.old names.new }
{
    let mut ids = Vec::new(alloc);
    for text in texts {
        let id = names.intern(text)?;
        ids.push(id)?;
    }
    Ok(ids)
}

// A job with the numbers of its names.
fn named(alloc: Global, names: &mut Names, unnamed: UnnamedJob) -> Result<BuildJob, NoMemory>
    ensures job { IfOk result (λ job. job_view names.new job ≡ unnamed_view unnamed) }
    ensures named { IfOk result (λ job. All (λ (n : NameId). n.0 < length names.new) job.names) }
    ensures grows { Grows names.old names.new }
{
    let ids = numbers_of(alloc, names, &unnamed.texts)?;
    Ok(BuildJob {
        module: unnamed.module,
        parameters: unnamed.parameters,
        clock: unnamed.clock,
        children: unnamed.children,
        names: NameList::new(ids),
    })
}

/// The jobs with the numbers of their names, which the table has then.
#[tactic(auto, using(crate::proofs::Numbers::jobs))]
pub fn all_named(
    alloc: Global,
    names: &mut Names,
    unnamed: Vec<UnnamedJob>,
) -> Result<Vec<BuildJob>, NoMemory>
    ensures jobs { IfOk result (λ jobs. map (job_view names.new) jobs.items ≡ map unnamed_view unnamed.items) }
    ensures named { IfOk result (λ jobs. All (λ j. All (λ (n : NameId). n.0 < length names.new) j.names) jobs.items) }
    ensures grows { Grows names.old names.new }
{
    let mut jobs = Vec::new(alloc);
    for one in unnamed {
        let job = named(alloc, names, one)?;
        jobs.push(job)?;
    }
    Ok(jobs)
}
