// Items to the signals that combinational blocks among them write.
ghost use Rattle.std.specs.Prelude.{◌≡◌, ◌||◌, ◌&&◌, ◌==◌, ℕ, IfOk, OnOk, length, map, nat_lt};
ghost use Rattle.typed_ir.specs.Items.{item_of, body_of};
ghost use Rattle.driver_rules.specs.Writes.{blocks_of};
ghost use Rattle.driver_rules.specs.Targets.{flag_at, names, block_names, is_settled};

use crate::spanning::block_of;
use block_rules::targets_in;
use ls_text::NoMemory;
use std::alloc::Global;
use typed_ir::{ItemBody, SignalId, Span, TypedItem};

// Flags a signal, where there are so many.
fn flag(flags: &mut [bool], signal: SignalId)
    ensures { (s : ℕ) → flag_at flags.new s ≡ (flag_at flags.old s || (nat_lt s (length flags.old) && (s == signal))) }
{
    let place = signal.index();
    if place >= flags.len() {
        return;
    }
    flags[place] = true;
}

// Flags the signals that spans are of.
fn flag_names(flags: &mut [bool], spans: &[Span])
    ensures { (s : ℕ) → flag_at flags.new s ≡ (flag_at flags.old s || (nat_lt s (length flags.old) && names s spans.now)) }
{
    for span in spans {
        flag(flags, span.signal);
    }
}

// Flags the signals that an item writes as a combinational block.
fn flag_block(alloc: Global, flags: &mut [bool], body: &ItemBody) -> Result<(), NoMemory>
    ensures { OnOk result ((s : ℕ) → flag_at flags.new s
        ≡ (flag_at flags.old s || (nat_lt s (length flags.old) && block_names s (blocks_of (body_of body.now))))) }
{
    match block_of(body) {
        None => Ok(()),
        Some(st) => {
            let spans = targets_in(alloc, st)?;
            flag_names(flags, &spans);
            Ok(())
        }
    }
}

// The same of all items.
fn flag_blocks(alloc: Global, flags: &mut [bool], items: &[TypedItem]) -> Result<(), NoMemory>
    ensures { OnOk result ((s : ℕ) → flag_at flags.new s
        ≡ (flag_at flags.old s || (nat_lt s (length flags.old) && is_settled (map item_of items.now) s))) }
{
    for item in items {
        flag_block(alloc, flags, &item.body)?;
    }
    Ok(())
}

/// For each of so many signals, whether a combinational block among the items writes it. Want of memory is `NoMemory`.
pub fn settled_signals(
    alloc: Global,
    items: &[TypedItem],
    count: usize,
) -> Result<Vec<bool>, NoMemory>
    ensures { IfOk result (λ flags. (s : ℕ) → flag_at flags.items s ≡ (nat_lt s count && is_settled (map item_of items.now) s)) }
{
    let mut flags = vec![in alloc; false; count]?;
    flag_blocks(alloc, &mut flags, items)?;
    Ok(flags)
}
