// Items to their bits, each with the one item that drives or writes it, or to the first part with a bit that another has (34).
ghost use Rattle.std.specs.Prelude.{◌≡◌, ◌<◌, ◌||◌, ◌&&◌, ℕ, [], false, length, map, IfOk, IfErr};
ghost use Rattle.typed_ir.specs.Valuations.{within, any_within, nowhere};
ghost use Rattle.typed_ir.specs.Items.{item_of};
ghost use Rattle.width_rules.specs.Faults.{IsFirst};
ghost use Rattle.typed_ir.specs.Touches.{has_bit};
ghost use Rattle.block_rules.specs.Paths.{places_of_true, some_below};
ghost use Rattle.driver_rules.specs.Writes.{writes, spans_of, AreWithin, AreItemsWithin};
ghost use Rattle.driver_rules.specs.Doubles.{meets, overlaps, doubles, item_doubles, double_faults};
ghost use Rattle.driver_rules.specs.Told.{marked, Grows, AreTold};

use crate::driver::Driver;
use crate::driver_id::DriverId;
use crate::numbering::{driver_id, numbers_after};
use crate::numbers::Numbers;
use crate::running::add_runs;
use crate::showing::{check_shown, earliest, note_if};
use crate::spanning::spans_of;
use crate::targeting::writer_of;
use ls_text::{NoMemory, Refusal};
use std::alloc::Global;
use typed_ir::{Span, TypedItem, run_mask};
use width_rules::Writer;

// Whether two masks have a bit in common.
fn meet(a: u128, b: u128) -> bool
    ensures { result ≡ some_below 128 (λ i. has_bit a i && has_bit b i) }
{
    a & b != 0
}

// Whether a part has a bit of the table.
fn meets(taken: &[u128], span: Span) -> bool
    requires { span.signal < length taken.now }
    ensures { result ≡ meets (marked taken.now) span }
{
    let signal = span.signal.index();
    let mask = run_mask(span.low, span.width);
    meet(mask, taken[signal])
}

// Takes the bits of a part: those that are new go to the list.
fn take_part(
    taken: &mut [u128],
    span: Span,
    by: &DriverId,
    drivers: &mut Vec<Driver>,
) -> Result<(), NoMemory>
    requires { span.signal < length taken.old }
    ensures { IfOk result (λ _. Grows by.now taken.old taken.new drivers.old.items drivers.new.items (within span)) }
{
    let signal = span.signal.index();
    let old = taken[signal];
    let mask = run_mask(span.low, span.width);
    add_runs(old, span, by, drivers)?;
    taken[signal] = old | mask;
    Ok(())
}

// Takes the bits of all parts of a block.
fn take_parts(
    taken: &mut [u128],
    spans: &[Span],
    by: &DriverId,
    drivers: &mut Vec<Driver>,
) -> Result<(), NoMemory>
    requires { AreWithin (length taken.old) spans.now }
    ensures { IfOk result (λ _. Grows by.now taken.old taken.new drivers.old.items drivers.new.items (any_within spans.now)) }
{
    for span in spans {
        take_part(taken, *span, by, drivers)?;
    }
    Ok(())
}

// The numbers of the parts that have a bit of the table.
fn met(alloc: Global, taken: &[u128], spans: &[Span]) -> Result<Vec<usize>, NoMemory>
    requires { AreWithin (length taken.now) spans.now }
    ensures { IfOk result (λ bad. bad.items ≡ places_of_true (map (meets (marked taken.now)) spans.now)) }
{
    let mut bad = Vec::new(alloc);
    for k in 0..spans.len() {
        let fault = meets(taken, spans[k]);
        note_if(fault, k, &mut bad)?;
    }
    Ok(bad)
}

// Takes the bits of all parts of a target; answers the numbers of those that have a bit of the table or of a part before them.
fn take_apart(
    alloc: Global,
    taken: &mut [u128],
    spans: &[Span],
    by: &DriverId,
    drivers: &mut Vec<Driver>,
) -> Result<Vec<usize>, NoMemory>
    requires { AreWithin (length taken.old) spans.now }
    ensures bad { IfOk result (λ bad. bad.items ≡ places_of_true (overlaps (marked taken.old) spans.now)) }
    ensures grows { IfOk result (λ _. Grows by.now taken.old taken.new drivers.old.items drivers.new.items (any_within spans.now)) }
{
    let mut bad = Vec::new(alloc);
    for k in 0..spans.len() {
        let double = meets(taken, spans[k]);
        note_if(double, k, &mut bad)?;
        take_part(taken, spans[k], by, drivers)?;
    }
    Ok(bad)
}

// Takes the bits of an item's parts; answers the numbers of those that have a bit that is driven or written twice.
fn take_spans(
    alloc: Global,
    taken: &mut [u128],
    writer: Writer,
    spans: &[Span],
    by: &DriverId,
    drivers: &mut Vec<Driver>,
) -> Result<Vec<usize>, NoMemory>
    requires { AreWithin (length taken.old) spans.now }
    ensures bad { IfOk result (λ bad. bad.items ≡ places_of_true (doubles (marked taken.old) writer spans.now)) }
    ensures grows { IfOk result (λ _. Grows by.now taken.old taken.new drivers.old.items drivers.new.items (any_within spans.now)) }
{
    match writer {
        Writer::Continuous => take_apart(alloc, taken, spans, by, drivers),
        Writer::Nothing | Writer::Clocked | Writer::Combinational => {
            let bad = met(alloc, taken, spans)?;
            take_parts(taken, spans, by, drivers)?;
            Ok(bad)
        }
    }
}

// Takes the bits of an item, or refuses a part with a bit that is driven or written twice.
fn take_item(
    alloc: Global,
    taken: &mut [u128],
    item: &TypedItem,
    by: &DriverId,
    drivers: &mut Vec<Driver>,
) -> Result<(), Refusal>
    requires { AreWithin (length taken.old) (spans_of (item_of item.now).body) }
    ensures faultless { IfOk result (λ _. item_doubles (marked taken.old) (item_of item.now) ≡ []) }
    ensures grows { IfOk result (λ _. Grows by.now taken.old taken.new drivers.old.items drivers.new.items (writes (item_of item.now))) }
    ensures fault { IfErr result (IsFirst (item_doubles (marked taken.old) (item_of item.now))) }
{
    let spans = spans_of(alloc, &item.body)?;
    let writer = writer_of(&item.body);
    let bad = take_spans(alloc, taken, writer, &spans, by, drivers)?;
    let shown = earliest(&bad, &item.places.targets, item.places.at);
    check_shown(alloc, 34, shown)
}

// Takes the bits of all items, one after another, into a table that has none.
#[tactic(auto, using(width_rules::proofs::Firsts::earlier, width_rules::proofs::Firsts::later, width_rules::proofs::Firsts::neither, crate::proofs::Taken::double_fault))]
fn take_items(
    alloc: Global,
    taken: &mut [u128],
    items: &[TypedItem],
) -> Result<Vec<Driver>, Refusal>
    requires within { AreItemsWithin (length taken.old) (map item_of items.now) }
    requires blank { (s i : ℕ) → marked taken.old s i ≡ false }
    ensures faultless { IfOk result (λ _. double_faults nowhere (map item_of items.now) ≡ []) }
    ensures told { IfOk result (λ drivers. AreTold (map item_of items.now) drivers.items) }
    ensures fault { IfErr result (IsFirst (double_faults nowhere (map item_of items.now))) }
{
    let mut drivers = Vec::new(alloc);
    let mut numbers = Numbers {
        nodes: 0,
        blocks: 0,
    };
    for item in items {
        let by = driver_id(numbers, &item.body);
        take_item(alloc, taken, item, &by, &mut drivers)?;
        numbers = numbers_after(numbers, &item.body)?;
    }
    Ok(drivers)
}

/// The bits that items drive or write, of so many signals, each with its item; or 34 MultipleDrivers at the first item, and there at the
/// earliest part, with a bit that an earlier item or, in an assignment or a connection, a part left of it has. Else want of memory.
pub fn driven_bits(alloc: Global, count: usize, items: &[TypedItem]) -> Result<Vec<Driver>, Refusal>
    requires { AreItemsWithin count (map item_of items.now) }
    ensures faultless { IfOk result (λ _. double_faults nowhere (map item_of items.now) ≡ []) }
    ensures told { IfOk result (λ drivers. AreTold (map item_of items.now) drivers.items) }
    ensures fault { IfErr result (IsFirst (double_faults nowhere (map item_of items.now))) }
{
    let mut taken = vec![in alloc; 0u128; count]?;
    take_items(alloc, &mut taken, items)
}
