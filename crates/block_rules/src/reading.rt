// Reads of a block to flags: whether each comes before the block has written what it reads.
ghost use Rattle.std.specs.Prelude.{◌≡◌, ◌&&◌, ◌++◌, IfOk, not, map, ◌∷◌, []};
ghost use Rattle.typed_ir.specs.Forms.{sized};
ghost use Rattle.typed_ir.specs.Targets.{targets_of};
ghost use Rattle.typed_ir.specs.Statements.{item_of};
ghost use Rattle.typed_ir.specs.Touches.{has_bit};
ghost use Rattle.block_rules.specs.Paths.{leaves, index_leaves, item_leaves, some_below, flags_of, index_flags, whole_signal};
ghost use Rattle.block_rules.specs.Tables.{size, bits_of};

use crate::bit_table::BitTable;
use crate::learning::{forget, learn_span};
use ls_text::NoMemory;
use std::alloc::Global;
use typed_ir::{Form, Item, SignalId, Span, Target, run_mask};

/// Whether some bit of a mask isn't among the known ones.
pub fn is_open(mask: u128, known: u128) -> bool
    ensures { result ≡ some_below 128 (λ i. has_bit mask i && not (has_bit known i)) }
{
    mask & known != mask
}

// Adds the flag of one read.
fn flag_read(
    span: Span,
    written: &BitTable,
    known: &BitTable,
    flags: &mut Vec<bool>,
) -> Result<(), NoMemory>
    ensures { IfOk result (λ _. flags.new.items ≡ flags.old.items ++ flags_of (bits_of written.now) (span ∷ []) (bits_of known.now)) }
{
    let mask = run_mask(span.low, span.width) & written.mask(span.signal);
    flags.push(is_open(mask, known.mask(span.signal)))?;
    Ok(())
}

// Adds the flag of a read of a signal as a whole.
fn flag_signal(
    signal: SignalId,
    written: &BitTable,
    known: &BitTable,
    flags: &mut Vec<bool>,
) -> Result<(), NoMemory>
    ensures { IfOk result (λ _. flags.new.items ≡ flags.old.items ++ flags_of (bits_of written.now) (whole_signal signal ∷ []) (bits_of known.now)) }
{
    let span = Span {
        signal,
        low: 0,
        width: 128,
    };
    flag_read(span, written, known, flags)
}

/// Adds the flags of the reads of an expression.
pub fn flag_form(
    form: &Form,
    written: &BitTable,
    known: &BitTable,
    flags: &mut Vec<bool>,
) -> Result<(), NoMemory>
    ensures { IfOk result (λ _. flags.new.items ≡ flags.old.items ++ flags_of (bits_of written.now) (leaves (sized form.now)) (bits_of known.now)) }
{
    match form {
        Form::Constant(_) => Ok(()),
        Form::Name { signal, .. } => flag_signal(*signal, written, known, flags),
        Form::Part(span) => flag_read(*span, written, known, flags),
        Form::Pick { signal, index, .. } => {
            flag_signal(*signal, written, known, flags)?;
            flag_form(index, written, known, flags)
        }
        Form::Unary { operand: a, .. }
        | Form::Repeat { part: a, .. }
        | Form::Resized { operand: a, .. } => flag_form(a, written, known, flags),
        Form::Binary {
            left: a,
            right: b,
            ..
        }
        | Form::Concat {
            high: a,
            low: b,
            ..
        } => {
            flag_form(a, written, known, flags)?;
            flag_form(b, written, known, flags)
        }
        Form::Choice {
            condition,
            consequent,
            alternative,
        } => {
            flag_form(condition, written, known, flags)?;
            flag_form(consequent, written, known, flags)?;
            flag_form(alternative, written, known, flags)
        }
    }
}

/// Adds the flags of the reads of the items of an arm.
pub fn flag_items(
    items: &[Item],
    written: &BitTable,
    known: &BitTable,
    flags: &mut Vec<bool>,
) -> Result<(), NoMemory>
    ensures { IfOk result (λ _. flags.new.items
        ≡ flags.old.items ++ flags_of (bits_of written.now) (item_leaves (map item_of items.now)) (bits_of known.now)) }
{
    for item in items {
        flag_form(&item.item.form, written, known, flags)?;
    }
    Ok(())
}

/// Adds the flags of the reads of the indices left of a nonblocking assignment.
pub fn flag_indices(
    parts: &[Target],
    written: &BitTable,
    known: &BitTable,
    flags: &mut Vec<bool>,
) -> Result<(), NoMemory>
    ensures { IfOk result (λ _. flags.new.items
        ≡ flags.old.items ++ flags_of (bits_of written.now) (index_leaves (targets_of parts.now)) (bits_of known.now)) }
{
    for part in parts {
        match part {
            Target::Fixed(_) => {}
            Target::Moving { index, .. } => flag_form(&index.form, written, known, flags)?,
        }
    }
    Ok(())
}

/// Adds the flags of the reads of the indices left of a blocking assignment, a part after what the parts left of it wrote. What is
/// known stays the same.
pub fn flag_parts(
    alloc: Global,
    parts: &[Target],
    written: &BitTable,
    known: &mut BitTable,
    flags: &mut Vec<bool>,
) -> Result<(), NoMemory>
    requires { size written.now ≡ size known.old }
    ensures size { IfOk result (λ _. size known.new ≡ size known.old) }
    ensures known { IfOk result (λ _. bits_of known.new ≡ bits_of known.old) }
    ensures flags { IfOk result (λ _. flags.new.items ≡ flags.old.items ++ index_flags (bits_of written.now) (targets_of parts.now) (bits_of known.old)) }
{
    let mut learned = Vec::new(alloc);
    for part in parts {
        match part {
            Target::Fixed(lane) => learn_span(lane.span, known, &mut learned)?,
            Target::Moving { index, .. } => flag_form(&index.form, written, known, flags)?,
        }
    }
    forget(&learned, known);
    Ok(())
}
