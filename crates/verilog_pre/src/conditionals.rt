// The conditionals that are open.
ghost use Rattle.std.specs.Prelude.{◌≡◌, ◌++◌, ◌∷◌, [], IfOk, OnOk, Some, None, if◌then◌else◌};
ghost use Rattle.verilog_pre.specs.Conditionals.{innermost, is_taken, reads, is_read, first_branch, next_branch, opened, continued, closed};

use crate::branch::Branch;
use crate::conditional::Conditional;
use ls_text::{NoMemory, Place};

// The conditional that was opened last of those that are open.
fn innermost(nest: &[Conditional]) -> Option<Conditional>
    ensures { result ≡ innermost nest.now }
{
    if nest.is_empty() {
        None
    } else {
        Some(nest[nest.len() - 1])
    }
}

/// Whether text is read here, and not skipped.
#[tactic(auto, unfolding(crate::specs::Conditionals::is_read))]
pub fn is_read(nest: &[Conditional]) -> bool
    ensures { result ≡ is_read nest.now }
{
    match innermost(nest) {
        Some(conditional) => conditional.branch == Branch::Taken,
        None => true,
    }
}

// Where the first branch of a conditional stands: its condition counts only where it is read itself.
fn first_branch(read: bool, holds: bool) -> Branch
    ensures { result ≡ first_branch read holds }
{
    if !read {
        Branch::Past
    } else if holds {
        Branch::Taken
    } else {
        Branch::Waiting
    }
}

// Where the next branch of a conditional stands: behind one that is taken, none is.
fn next_branch(branch: Branch, holds: bool) -> Branch
    ensures { result ≡ next_branch branch holds }
{
    match branch {
        Branch::Taken => Branch::Past,
        Branch::Waiting => {
            if holds {
                Branch::Taken
            } else {
                Branch::Waiting
            }
        }
        Branch::Past => Branch::Past,
    }
}

/// Opens a conditional.
#[tactic(auto, unfolding(crate::specs::Conditionals::opened))]
pub fn begin(
    conditionals: &mut Vec<Conditional>,
    at: Place,
    negated: bool,
    holds: bool,
) -> Result<(), NoMemory>
    ensures { OnOk result (conditionals.new.items ≡ opened at negated holds conditionals.old.items) }
{
    let branch = first_branch(is_read(conditionals), holds);
    conditionals.push(Conditional {
        at,
        negated,
        branch,
        closing: false,
    })?;
    Ok(())
}

/// Begins the next branch of the innermost conditional, where there is one that hasn't had its `else`.
#[tactic(auto, unfolding(crate::specs::Conditionals::continued))]
pub fn next(
    conditionals: &mut Vec<Conditional>,
    holds: bool,
    closing: bool,
) -> Result<bool, NoMemory>
    ensures { IfOk result (λ done. continued holds closing conditionals.old.items ≡ (if done then Some conditionals.new.items else None)) }
{
    let Some(conditional) = innermost(conditionals) else {
        return Ok(false);
    };
    if conditional.closing {
        return Ok(false);
    }
    let branch = next_branch(conditional.branch, holds);
    conditionals.truncate(conditionals.len() - 1);
    conditionals.push(Conditional {
        at: conditional.at,
        negated: conditional.negated,
        branch,
        closing,
    })?;
    Ok(true)
}

/// Closes the innermost conditional, where there is one.
#[tactic(auto, unfolding(crate::specs::Conditionals::closed))]
pub fn close(conditionals: &mut Vec<Conditional>) -> bool
    ensures { closed conditionals.old.items ≡ (if result then Some conditionals.new.items else None) }
{
    if conditionals.is_empty() {
        return false;
    }
    conditionals.truncate(conditionals.len() - 1);
    true
}
