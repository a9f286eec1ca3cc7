// Bits that join a table, with a list of the new ones, by which they are taken out again.
ghost use Rattle.std.specs.Prelude.{◌≡◌, ◌&&◌, ◌||◌, ◌==◌, ℕ, IfOk, not, []};
ghost use Rattle.typed_ir.specs.Valuations.{within, any_within};
ghost use Rattle.typed_ir.specs.Stmts.{certain};
ghost use Rattle.typed_ir.specs.Targets.{targets_of};
ghost use Rattle.typed_ir.specs.Touches.{has_bit, touched, Adds};
ghost use Rattle.block_rules.specs.Tables.{size, bits_of, Leads};

use crate::bit_table::BitTable;
use ls_text::NoMemory;
use std::alloc::Global;
use typed_ir::{SignalId, Span, Target, Touch, run_mask};

/// Adds bits of a signal to a table, and those of them that are new to a list. Bits of a signal that the table doesn't have are
/// dropped. Want of memory is `NoMemory`.
pub fn learn(
    signal: SignalId,
    mask: u128,
    table: &mut BitTable,
    learned: &mut Vec<Touch>,
) -> Result<(), NoMemory>
    ensures { IfOk result (λ _. Leads table.old table.new learned.old.items learned.new.items (bits_of table.new)
        (λ s i. bits_of table.old s i || ((s == signal) && has_bit mask i))) }
{
    let before = table.mask(signal);
    table.add(signal, mask);
    let gained = table.mask(signal) ^ before;
    if gained == 0 {
        return Ok(());
    }
    learned.push(Touch {
        signal,
        mask: gained,
    })?;
    Ok(())
}

/// The same of the bits of a span.
pub fn learn_span(
    span: Span,
    table: &mut BitTable,
    learned: &mut Vec<Touch>,
) -> Result<(), NoMemory>
    ensures { IfOk result (λ _. Leads table.old table.new learned.old.items learned.new.items (bits_of table.new)
        (λ s i. bits_of table.old s i || within span s i)) }
{
    let mask = run_mask(span.low, span.width);
    learn(span.signal, mask, table, learned)
}

/// The same of the bits of spans.
pub fn learn_spans(
    spans: &[Span],
    table: &mut BitTable,
    learned: &mut Vec<Touch>,
) -> Result<(), NoMemory>
    ensures { IfOk result (λ _. Leads table.old table.new learned.old.items learned.new.items (bits_of table.new)
        (λ s i. bits_of table.old s i || any_within spans.now s i)) }
{
    for span in spans {
        learn_span(*span, table, learned)?;
    }
    Ok(())
}

/// The same of the bits that an assignment to these parts writes for certain.
pub fn learn_parts(
    parts: &[Target],
    table: &mut BitTable,
    learned: &mut Vec<Touch>,
) -> Result<(), NoMemory>
    ensures { IfOk result (λ _. Leads table.old table.new learned.old.items learned.new.items (bits_of table.new)
        (λ s i. bits_of table.old s i || certain (targets_of parts.now) s i)) }
{
    for part in parts {
        match part {
            Target::Fixed(lane) => learn_span(lane.span, table, learned)?,
            Target::Moving { .. } => {}
        }
    }
    Ok(())
}

/// The same of the bits of masks.
pub fn learn_all(
    touches: &[Touch],
    table: &mut BitTable,
    learned: &mut Vec<Touch>,
) -> Result<(), NoMemory>
    ensures { IfOk result (λ _. Leads table.old table.new learned.old.items learned.new.items (bits_of table.new)
        (λ s i. bits_of table.old s i || touched touches.now s i)) }
{
    for touch in touches {
        learn(touch.signal, touch.mask, table, learned)?;
    }
    Ok(())
}

/// Takes the bits of masks out of a table.
pub fn forget(touches: &[Touch], table: &mut BitTable)
    ensures size { size table.new ≡ size table.old }
    ensures bits { (s i : ℕ) → bits_of table.new s i ≡ (bits_of table.old s i && not (touched touches.now s i)) }
{
    for touch in touches {
        table.take(touch.signal, touch.mask);
    }
}

// Adds those bits of a mask that are in a table, if there are any.
fn keep_shared(
    signal: SignalId,
    mask: u128,
    table: &BitTable,
    kept: &mut Vec<Touch>,
) -> Result<(), NoMemory>
    ensures { IfOk result (λ _. Adds kept.old.items kept.new.items (λ s i. ((s == signal) && has_bit mask i) && bits_of table.now s i)) }
{
    let both = mask & table.mask(signal);
    if both == 0 {
        return Ok(());
    }
    kept.push(Touch { signal, mask: both })?;
    Ok(())
}

/// Those bits of masks that are in a table. Want of memory is `NoMemory`.
pub fn shared(alloc: Global, touches: &[Touch], table: &BitTable) -> Result<Vec<Touch>, NoMemory>
    ensures { IfOk result (λ kept. Adds [] kept.items (λ s i. touched touches.now s i && bits_of table.now s i)) }
{
    let mut kept = Vec::new(alloc);
    for touch in touches {
        keep_shared(touch.signal, touch.mask, table, &mut kept)?;
    }
    Ok(kept)
}
