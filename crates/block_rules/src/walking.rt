// A walk through a statement: the flags of its reads, and the bits that are written on every path.
ghost use Rattle.std.specs.Prelude.{◌≡◌, ◌&&◌, ◌||◌, ◌++◌, IfOk, map, []};
ghost use Rattle.typed_ir.specs.Stmts.{known_after, known_after_arms};
ghost use Rattle.typed_ir.specs.Statements.{stmt_of, arm_of, sequence_of, arms_before};
ghost use Rattle.typed_ir.specs.Touches.{touched, Adds};
ghost use Rattle.block_rules.specs.Paths.{reads_early, arms_early};
ghost use Rattle.block_rules.specs.Tables.{size, bits_of, SameBelow, Leads, common_of, candidates};

use crate::bit_table::BitTable;
use crate::learning::{forget, learn_all, learn_parts, shared};
use crate::reading::{flag_form, flag_indices, flag_items, flag_parts};
use ls_text::NoMemory;
use std::alloc::Global;
use typed_ir::{Arm, Stmt, Touch};

// What a branch has in common with those before it, where `known` has what was known and what the branch wrote; without one before it
// what it wrote.
fn in_common(
    alloc: Global,
    common: Option<Vec<Touch>>,
    learned: &[Touch],
    known: &BitTable,
) -> Result<Vec<Touch>, NoMemory>
    ensures { IfOk result (λ both. Adds [] both.items (λ s i. touched (candidates common learned.now) s i && bits_of known.now s i)) }
{
    match common {
        None => shared(alloc, learned, known),
        Some(list) => shared(alloc, &list, known),
    }
}

/// Adds the flags of the reads of a statement, and the bits that it writes on every path to those that are known; `learned` takes the
/// new ones of these. Want of memory is `NoMemory`.
#[cycle(paths)]
pub fn walk(
    alloc: Global,
    st: &Stmt,
    written: &BitTable,
    known: &mut BitTable,
    flags: &mut Vec<bool>,
    learned: &mut Vec<Touch>,
) -> Result<(), NoMemory>
    requires { size written.now ≡ size known.old }
    ensures known { IfOk result (λ _. Leads known.old known.new learned.old.items learned.new.items (bits_of known.new)
        (known_after (stmt_of st.now) (bits_of known.old))) }
    ensures flags { IfOk result (λ _. flags.new.items ≡ flags.old.items ++ reads_early (bits_of written.now) (stmt_of st.now) (bits_of known.old)) }
{
    match st {
        Stmt::Skip => Ok(()),
        Stmt::Assign { targets, value } => {
            flag_parts(alloc, targets, written, known, flags)?;
            flag_form(&value.form, written, known, flags)?;
            learn_parts(targets, known, learned)
        }
        Stmt::Later { targets, value } => {
            flag_indices(targets, written, known, flags)?;
            flag_form(&value.form, written, known, flags)
        }
        Stmt::Sequence(list) => walk_all(alloc, list, written, known, flags, learned),
        Stmt::If {
            condition,
            consequent,
            alternative,
        } => {
            flag_form(&condition.form, written, known, flags)?;
            let first = branch(alloc, None, consequent, written, known, flags)?;
            let both = branch(alloc, Some(first), alternative, written, known, flags)?;
            learn_all(&both, known, learned)
        }
        Stmt::Case {
            subject,
            arms,
            otherwise,
        } => {
            flag_form(&subject.form, written, known, flags)?;
            walk_arms(alloc, arms, otherwise, written, known, flags, learned)
        }
    }
}

// The same of statements one after another.
#[cycle(paths)]
fn walk_all(
    alloc: Global,
    list: &[Stmt],
    written: &BitTable,
    known: &mut BitTable,
    flags: &mut Vec<bool>,
    learned: &mut Vec<Touch>,
) -> Result<(), NoMemory>
    requires { size written.now ≡ size known.old }
    ensures known { IfOk result (λ _. Leads known.old known.new learned.old.items learned.new.items (bits_of known.new)
        (known_after (sequence_of (map stmt_of list.now)) (bits_of known.old))) }
    ensures flags { IfOk result (λ _. flags.new.items
        ≡ flags.old.items ++ reads_early (bits_of written.now) (sequence_of (map stmt_of list.now)) (bits_of known.old)) }
{
    for st in list {
        walk(alloc, st, written, known, flags, learned)?;
    }
    Ok(())
}

// The same of the arms of a case and its default: what all of them write is written on every path.
#[cycle(paths)]
fn walk_arms(
    alloc: Global,
    arms: &[Arm],
    otherwise: &Stmt,
    written: &BitTable,
    known: &mut BitTable,
    flags: &mut Vec<bool>,
    learned: &mut Vec<Touch>,
) -> Result<(), NoMemory>
    requires { size written.now ≡ size known.old }
    ensures known { IfOk result (λ _. Leads known.old known.new learned.old.items learned.new.items (bits_of known.new)
        (known_after_arms (arms_before (map arm_of arms.now) (stmt_of otherwise.now)) (bits_of known.old))) }
    ensures flags { IfOk result (λ _. flags.new.items
        ≡ flags.old.items ++ arms_early (bits_of written.now) (arms_before (map arm_of arms.now) (stmt_of otherwise.now)) (bits_of known.old)) }
{
    let mut common = None;
    for arm in arms {
        flag_items(&arm.items, written, known, flags)?;
        common = Some(branch(alloc, common, &arm.body, written, known, flags)?);
    }
    let all = branch(alloc, common, otherwise, written, known, flags)?;
    learn_all(&all, known, learned)
}

// Walks through one of several branches, and takes back what it wrote: the answer is what it has in common with those before it.
#[cycle(paths)]
fn branch(
    alloc: Global,
    common: Option<Vec<Touch>>,
    st: &Stmt,
    written: &BitTable,
    known: &mut BitTable,
    flags: &mut Vec<bool>,
) -> Result<Vec<Touch>, NoMemory>
    requires { size written.now ≡ size known.old }
    ensures size { IfOk result (λ _. size known.new ≡ size known.old) }
    ensures known { IfOk result (λ _. bits_of known.new ≡ bits_of known.old) }
    ensures common { IfOk result (λ both. SameBelow (size known.old)
        (λ s i. bits_of known.old s i || touched both.items s i)
        (λ s i. bits_of known.old s i || (common_of common s i && known_after (stmt_of st.now) (bits_of known.old) s i))) }
    ensures flags { IfOk result (λ _. flags.new.items ≡ flags.old.items ++ reads_early (bits_of written.now) (stmt_of st.now) (bits_of known.old)) }
{
    let mut learned = Vec::new(alloc);
    walk(alloc, st, written, known, flags, &mut learned)?;
    let both = in_common(alloc, common, &learned, known)?;
    forget(&learned, known);
    Ok(both)
}
