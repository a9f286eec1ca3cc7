// Combinational blocks to the first read of a bit that the block writes only later (36), or to its first latch (35).
ghost use Rattle.std.specs.Prelude.{◌≡◌, ◌++◌, ◌<◌, ℕ, [], true, IfErr, OnOk, length, map};
ghost use Rattle.typed_ir.specs.Statements.{stmt_of};
ghost use Rattle.typed_ir.specs.Orders.{is_member};
ghost use Rattle.block_rules.specs.Paths.{unwritten, AreHere};
ghost use Rattle.block_rules.specs.Tables.{signals_of, AreBlank};
ghost use Rattle.typed_ir.specs.Items.{item_of};
ghost use Rattle.typed_ir.specs.Units.{signal_within};
ghost use Rattle.width_rules.specs.Faults.{IsFirst};
ghost use Rattle.driver_rules.specs.Writes.{AreItemsWithin, AreWithin, spans_of, blocks_of};
ghost use Rattle.driver_rules.specs.Blocks.{order_at, name_at, comes_before, nearer, first_declared, latched, read_faults, latch_faults, path_faults, block_faults};

use crate::showing::{check_shown, earliest};
use crate::spanning::block_of;
use block_rules::{PathTables, paths_of};
use ls_text::{NameId, Place, Refusal};
use std::alloc::Global;
use typed_ir::{ItemPlaces, SignalDeclaration, SignalId, Stmt, TypedItem, UnitSignal};
use width_rules::refused;

// The number of a signal's declaration, 0 where it has none.
fn order_at(declarations: &[SignalDeclaration], signal: SignalId) -> u32
    ensures { result ≡ order_at declarations.now signal }
{
    let place = signal.index();
    if place < declarations.len() {
        declarations[place].order
    } else {
        0
    }
}

// Whether the first of two signals is declared before the second, or with it and has the lower number.
fn is_before(declarations: &[SignalDeclaration], first: SignalId, second: SignalId) -> bool
    ensures { result ≡ comes_before declarations.now first second }
{
    let one = order_at(declarations, first);
    let two = order_at(declarations, second);
    one < two || (one == two && first.number() <= second.number())
}

// Of a signal and what was found so far the one that is declared first.
fn nearer(declarations: &[SignalDeclaration], found: Option<SignalId>, signal: SignalId) -> SignalId
    ensures { result ≡ nearer declarations.now found signal }
{
    match found {
        None => signal,
        Some(first) => {
            if is_before(declarations, first, signal) {
                first
            } else {
                signal
            }
        }
    }
}

// Of some signals the one that is declared first, of equals the one with the lowest number.
fn first_declared(declarations: &[SignalDeclaration], signals: &[SignalId]) -> Option<SignalId>
    requires { (s : ℕ) → is_member s signals.now ≡ true → s < length declarations.now }
    ensures { result ≡ first_declared declarations.now (λ s. is_member s signals.now) (length declarations.now) }
{
    let mut found = None;
    for signal in signals {
        found = Some(nearer(declarations, found, *signal));
    }
    found
}

// The name of a signal.
fn name_at(signals: &[UnitSignal], signal: SignalId) -> Option<NameId>
    ensures { result ≡ name_at (map signal_within signals.now) signal }
{
    let place = signal.index();
    if place < signals.len() {
        Some(signals[place].name)
    } else {
        None
    }
}

// A latch, or want of memory.
fn check_latch(
    alloc: Global,
    signals: &[UnitSignal],
    at: Place,
    found: Option<SignalId>,
) -> Result<(), Refusal>
    ensures faultless { OnOk result (latched (map signal_within signals.now) at found ≡ []) }
    ensures fault { IfErr result (IsFirst (latched (map signal_within signals.now) at found)) }
{
    match found {
        None => Ok(()),
        Some(signal) => Err(refused(alloc, 35, at, name_at(signals, signal))),
    }
}

// What is wrong with a combinational block of an item, or want of memory.
fn check_block(
    alloc: Global,
    tables: &mut PathTables,
    signals: &[UnitSignal],
    declarations: &[SignalDeclaration],
    places: &ItemPlaces,
    st: &Stmt,
) -> Result<(), Refusal>
    requires blank { AreBlank tables.old }
    requires size { signals_of tables.old ≡ length declarations.now }
    requires here { AreHere (length declarations.now) (stmt_of st.now) }
    ensures faultless { OnOk result (read_faults places.now.reads.items places.now.at (stmt_of st.now)
        ++ latch_faults (map signal_within signals.now) declarations.now places.now.at (stmt_of st.now) ≡ []) }
    ensures fault { IfErr result (IsFirst (read_faults places.now.reads.items places.now.at (stmt_of st.now)
        ++ latch_faults (map signal_within signals.now) declarations.now places.now.at (stmt_of st.now))) }
    ensures blank { OnOk result (AreBlank tables.new) }
    ensures size { OnOk result (signals_of tables.new ≡ length declarations.now) }
{
    let paths = paths_of(alloc, tables, st)?;
    let early = earliest(&paths.early, &places.reads, places.at);
    check_shown(alloc, 36, early)?;
    let latch = first_declared(declarations, &paths.unwritten);
    check_latch(alloc, signals, places.at, latch)
}

// The same of an item, which may be no such block.
fn check_item(
    alloc: Global,
    tables: &mut PathTables,
    signals: &[UnitSignal],
    declarations: &[SignalDeclaration],
    item: &TypedItem,
) -> Result<(), Refusal>
    requires blank { AreBlank tables.old }
    requires size { signals_of tables.old ≡ length declarations.now }
    requires within { AreWithin (length declarations.now) (spans_of (item_of item.now).body) }
    ensures faultless { OnOk result (path_faults (map signal_within signals.now) declarations.now (item_of item.now) (blocks_of (item_of item.now).body) ≡ []) }
    ensures fault { IfErr result (IsFirst (path_faults (map signal_within signals.now) declarations.now (item_of item.now) (blocks_of (item_of item.now).body))) }
    ensures blank { OnOk result (AreBlank tables.new) }
    ensures size { OnOk result (signals_of tables.new ≡ length declarations.now) }
{
    match block_of(&item.body) {
        None => Ok(()),
        Some(st) => check_block(alloc, tables, signals, declarations, &item.places, st),
    }
}

// The same of all items.
#[tactic(auto, using(width_rules::proofs::Firsts::earlier, width_rules::proofs::Firsts::later, width_rules::proofs::Firsts::neither, crate::proofs::Walks::block_ahead, crate::proofs::Walks::block_fault))]
fn check_items(
    alloc: Global,
    tables: &mut PathTables,
    signals: &[UnitSignal],
    declarations: &[SignalDeclaration],
    items: &[TypedItem],
) -> Result<(), Refusal>
    requires blank { AreBlank tables.old }
    requires size { signals_of tables.old ≡ length declarations.now }
    requires within { AreItemsWithin (length declarations.now) (map item_of items.now) }
    ensures faultless { OnOk result (block_faults (map signal_within signals.now) declarations.now (map item_of items.now) ≡ []) }
    ensures fault { IfErr result (IsFirst (block_faults (map signal_within signals.now) declarations.now (map item_of items.now))) }
{
    for item in items {
        check_item(alloc, tables, signals, declarations, item)?;
    }
    Ok(())
}

/// The first combinational block with a fault: 36 ReadBeforeWrite at its earliest read of a bit that it writes and hasn't written on
/// every path to there, else 35 Latch at the item, with the signal declared first of which it doesn't write each bit on every path that
/// it writes at all. Else want of memory. All that the items write has a declaration.
pub fn check_blocks(
    alloc: Global,
    signals: &[UnitSignal],
    declarations: &[SignalDeclaration],
    items: &[TypedItem],
) -> Result<(), Refusal>
    requires { AreItemsWithin (length declarations.now) (map item_of items.now) }
    ensures faultless { OnOk result (block_faults (map signal_within signals.now) declarations.now (map item_of items.now) ≡ []) }
    ensures fault { IfErr result (IsFirst (block_faults (map signal_within signals.now) declarations.now (map item_of items.now))) }
{
    let mut tables = PathTables::new(alloc, declarations.len())?;
    check_items(alloc, &mut tables, signals, declarations, items)
}
