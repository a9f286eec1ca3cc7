// From files to the instances of their design, and the jobs of these.
ghost use Rattle.std.specs.Prelude.{◌≡◌, ◌≤◌, ◌<◌, length, IfOk, IfErr, IfSome};
ghost use Rattle.std.specs.List.{All};
ghost use Rattle.ls_text.specs.Readings.{CanShow};
ghost use Rattle.ls_text.specs.Texts.{Grows, HasEachOnce};
ghost use Rattle.version_swap.specs.FoundUnder.{IsNumberOf, IsFoundUnder};
ghost use Rattle.version_swap.specs.Plans.{IsPlanRefusal};

use crate::found::Found;
use crate::modules::modules_of;
use elaborate::elaborate;
use ls_text::{NameId, Names, NoMemory, Refusal, SourceFile};
use std::alloc::Global;
use unit_jobs::jobs_of;

// The number of the top's name. Where none is given it is that of the empty text, since no module is called so.
fn top_number(names: &mut Names, top: Option<NameId>) -> Result<NameId, NoMemory>
    requires { IfSome top (λ n. n.0 < length names.old) }
    ensures number { IfOk result (λ n. IsNumberOf names.new top n.0) }
    ensures within { IfOk result (λ n. n.0 < length names.new) }
    ensures grows { Grows names.old names.new }
{
    match top {
        Some(name) => Ok(name),
        None => names.intern(b""),
    }
}

// A table of names says of its texts that no two are equal.
fn ask_once(names: &Names)
    ensures { HasEachOnce names.now }
{
    let _text = names.text(NameId(0));
}

/// The instances of the design of files, and the job of each, or the first fault: of the texts, and then of elaboration.
pub fn found(
    alloc: Global,
    names: &mut Names,
    files: &[SourceFile],
    top: Option<NameId>,
    clock: NameId,
) -> Result<Found, Refusal>
    requires files { length files.now ≤ 256 }
    requires texts { All (λ f. length f.text ≤ 4194304) files.now }
    requires top { IfSome top (λ n. n.0 < length names.old) }
    requires clock { clock.0 < length names.old }
    ensures found { IfOk result (λ f. IsFoundUnder names.new files.now top clock f.tree.instances.items f.jobs.items) }
    ensures refused { IfErr result (IsPlanRefusal names.new files.now top clock) }
    ensures known { IfErr result (CanShow (length names.new)) }
    ensures grows { Grows names.old names.new }
{
    let number = top_number(names, top)?;
    let modules = modules_of(alloc, names, files)?;
    let tree = elaborate(alloc, names, &modules, number, clock)?;
    let jobs = jobs_of(alloc, names, modules, &tree)?;
    ask_once(names);
    Ok(Found { tree, jobs })
}
