// Whether signals are of a list, and whether clocked blocks write those of a list alone.
ghost use Rattle.std.specs.Prelude.{◌≡◌, ℕ, IfOk, map, nat_eq};
ghost use Rattle.indexmap.specs.IndexSet.{contains};
ghost use Rattle.typed_ir.specs.Statements.{stmt_of};
ghost use Rattle.typed_ir.specs.Orders.{is_member, are_distinct};
ghost use Rattle.comb_order.specs.Parts.{spans_in, none_in, blocks_in};

use crate::members::Members;
use indexmap::IndexSet;
use ls_text::NoMemory;
use std::alloc::Global;
use typed_ir::{SignalId, Span, Stmt, later_spans};

// The set of a list's numbers.
fn set_of(alloc: Global, xs: &[SignalId]) -> Result<IndexSet<u32>, NoMemory>
    ensures { IfOk result (λ set. (q : ℕ) → contains nat_eq set q ≡ is_member q xs.now) }
{
    let mut set = IndexSet::with_capacity(alloc, xs.len())?;
    for x in xs {
        let number = x.number();
        set.insert(number)?;
    }
    Ok(set)
}

/// A list with the set of its numbers.
pub fn members_of<'a>(alloc: Global, listed: &'a [SignalId]) -> Result<Members<'a>, NoMemory>
    ensures { IfOk result (λ m. m.listed.now ≡ listed.now) }
{
    let set = set_of(alloc, listed)?;
    Ok(Members { listed, set })
}

fn is_member(x: SignalId, all: &Members<'_>) -> bool
    ensures { result ≡ is_member x all.now.listed.now }
{
    all.set.contains(&x.0)
}

/// Whether none of the second list is in the first.
pub fn none_in(all: &Members<'_>, xs: &[SignalId]) -> bool
    ensures { result ≡ none_in all.now.listed.now xs.now }
{
    for x in xs {
        if is_member(*x, all) {
            return false;
        }
    }
    true
}

/// Whether no number stands twice.
pub fn are_distinct(alloc: Global, xs: &[SignalId]) -> Result<bool, NoMemory>
    ensures { IfOk result (λ distinct. distinct ≡ are_distinct xs.now) }
{
    let mut set = IndexSet::with_capacity(alloc, xs.len())?;
    let mut left = xs.len();
    while left > 0 {
        left -= 1;
        let x = xs[left];
        let number = x.number();
        let is_new = set.insert(number)?;
        if !is_new {
            return Ok(false);
        }
    }
    Ok(true)
}

// Whether spans are of these signals alone.
fn spans_in(spans: &[Span], registers: &Members<'_>) -> bool
    ensures { result ≡ spans_in registers.now.listed.now spans.now }
{
    for span in spans {
        if !is_member(span.signal, registers) {
            return false;
        }
    }
    true
}

/// Whether clocked blocks write registers alone. Want of memory is `NoMemory`.
pub fn write_registers(
    alloc: Global,
    blocks: &[Stmt],
    registers: &Members<'_>,
) -> Result<bool, NoMemory>
    ensures { IfOk result (λ only. only ≡ blocks_in registers.now.listed.now (map stmt_of blocks.now)) }
{
    for block in blocks {
        let spans = later_spans(alloc, block)?;
        if !spans_in(&spans, registers) {
            return Ok(false);
        }
    }
    Ok(true)
}
