// Two tables of instances to numbers of their paths: each path joins one list of steps, where it stands once, found by its hash.
ghost use Rattle.std.specs.Prelude.{◌≡◌, IsTrue, IfOk, length};
ghost use Rattle.typed_ir.specs.Paths.{parents_of, parents_before, paths_of};
ghost use Rattle.reg_transform.specs.PathNumbers.{IsPathTable, Grows, IsNext, IsNumbered, NumberPaths, goes_on, number_above};

use crate::path_numbers::PathNumbers;
use crate::path_step::PathStep;
use indexmap::IndexSet;
use ls_text::NoMemory;
use std::alloc::Global;
use typed_ir::{InstanceId, InstanceName, InstanceTable};

// The number of the path of what an instance stands in.
fn number_above(numbers: &[usize], parent: Option<InstanceId>) -> Option<usize>
    requires { IsTrue (goes_on (length numbers.now) parent) }
    ensures { result ≡ number_above numbers.now parent }
{
    match parent {
        None => None,
        Some(instance) => {
            let place = instance.index();
            Some(numbers[place])
        }
    }
}

// The number of a path, which joins the known ones where it isn't one of them.
fn number_of(known: &mut IndexSet<PathStep>, step: PathStep) -> Result<usize, NoMemory>
    requires table { IsPathTable known.old.keys }
    requires goes_on { IsTrue (goes_on (length known.old.keys) step.before) }
    ensures { IfOk result (λ number. IsNext known.old.keys known.new.keys step number) }
{
    let (number, _) = known.insert_full(step)?;
    Ok(number)
}

// The numbers of the paths of a table's instances.
fn numbers_of(
    alloc: Global,
    known: &mut IndexSet<PathStep>,
    rows: &[InstanceName],
) -> Result<Vec<usize>, NoMemory>
    requires table { IsPathTable known.old.keys }
    requires rooted { IsTrue (parents_before 0 (parents_of rows.now)) }
    ensures table { IfOk result (λ _. IsPathTable known.new.keys) }
    ensures grows { IfOk result (λ _. Grows known.old.keys known.new.keys) }
    ensures numbers { IfOk result (λ numbers. IsNumbered known.new.keys numbers.items (paths_of rows.now)) }
{
    let mut numbers = Vec::new(alloc);
    for row in rows {
        let before = number_above(&numbers, row.parent);
        let name = row.name;
        let number = number_of(known, PathStep { before, name })?;
        numbers.push(number)?;
    }
    Ok(numbers)
}

/// Numbers for the paths of two tables of instances. It takes time in proportion to both.
pub fn path_numbers(
    alloc: Global,
    old: &InstanceTable,
    new: &InstanceTable,
) -> Result<PathNumbers, NoMemory>
    ensures { IfOk result (λ n. NumberPaths n.old.items old.now.rows.items n.new.items new.now.rows.items) }
{
    let mut known = IndexSet::new(alloc);
    let before = numbers_of(alloc, &mut known, &old.rows)?;
    let after = numbers_of(alloc, &mut known, &new.rows)?;
    Ok(PathNumbers {
        old: before,
        new: after,
    })
}
