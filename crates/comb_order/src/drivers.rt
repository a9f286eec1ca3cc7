// For each signal the nodes that drive bits of it, and the clocked blocks that write bits of it.
ghost use Rattle.std.specs.Prelude.{◌≡◌, ◌+◌, ◌<◌, ◌^◌, ◌==◌, ◌&&◌, ◌||◌, ℕ, [], IfOk, length, map};
ghost use Rattle.typed_ir.specs.FlatNodes.{node_of};
ghost use Rattle.typed_ir.specs.Nodes.{drives_at};
ghost use Rattle.typed_ir.specs.Touches.{has_bit, touched, Adds};
ghost use Rattle.typed_ir.specs.Statements.{stmt_of};
ghost use Rattle.typed_ir.specs.Cycles.{block_writes, writes_at};
ghost use Rattle.typed_ir.specs.Rows.{row_in};
ghost use Rattle.comb_order.specs.Driving.{drives_in, Rises, AllRise};

use crate::driver_id::DriverId;
use ls_text::NoMemory;
use std::alloc::Global;
use typed_ir::{Node, Stmt, Touch, drives_of, later_spans, touches_of};

/// A node or a clocked block, and the bits of a signal that it drives or may write.
#[derive(Clone, Copy, Debug, PartialEq, Eq)]
pub struct Driver {
    pub item: DriverId,
    pub mask: u128,
}

// More bits that the last driver drives join its mask, so a signal has no more drivers than bits.
fn add_driver(row: &mut Vec<Driver>, driver: Driver) -> Result<(), NoMemory>
    requires { Rises 0 row.old.items (driver.item + 1) }
    ensures drives { IfOk result (λ _. (a i : ℕ) → drives_in row.new.items a i
        ≡ (drives_in row.old.items a i || ((a == driver.item) && has_bit driver.mask i))) }
    ensures rises { IfOk result (λ _. Rises 0 row.new.items (driver.item + 1)) }
{
    match row.pop() {
        Some(last) => {
            if last.item.number() == driver.item.number() {
                let mask = last.mask | driver.mask;
                row.push(Driver {
                    item: driver.item,
                    mask,
                })?;
            } else {
                row.push(last)?;
                row.push(driver)?;
            }
        }
        None => row.push(driver)?,
    }
    Ok(())
}

// An item drives these bits of a signal too.
fn add_touch(table: &mut [Vec<Driver>], item: DriverId, touch: Touch) -> Result<(), NoMemory>
    requires { AllRise table.old (item + 1) }
    ensures drives { IfOk result (λ _. (a s i : ℕ) → s < length table.old → drives_in (row_in table.new s) a i
        ≡ (drives_in (row_in table.old s) a i || ((a == item) && ((s == touch.signal) && has_bit touch.mask i)))) }
    ensures rises { IfOk result (λ _. AllRise table.new (item + 1)) }
{
    let signal = touch.signal.index();
    if signal >= table.len() {
        return Ok(());
    }
    let mask = touch.mask;
    add_driver(&mut table[signal], Driver { item, mask })?;
    Ok(())
}

// An item drives these bits too.
fn add_touches(table: &mut [Vec<Driver>], item: DriverId, touches: &[Touch]) -> Result<(), NoMemory>
    requires { AllRise table.old (item + 1) }
    ensures drives { IfOk result (λ _. (a s i : ℕ) → s < length table.old → drives_in (row_in table.new s) a i
        ≡ (drives_in (row_in table.old s) a i || ((a == item) && touched touches.now s i))) }
    ensures rises { IfOk result (λ _. AllRise table.new (item + 1)) }
{
    for touch in touches {
        add_touch(table, item, *touch)?;
    }
    Ok(())
}

// So many empty rows.
fn empty_table(alloc: Global, count: usize) -> Result<Vec<Vec<Driver>>, NoMemory>
    ensures length { IfOk result (λ table. length table.items ≡ count) }
    ensures empty { IfOk result (λ table. (s : ℕ) → row_in table.items s ≡ []) }
{
    let mut table = Vec::new(alloc);
    for _signal in 0..count {
        table.push(Vec::new(alloc))?;
    }
    Ok(table)
}

/// For each of so many signals the nodes that drive bits of it, in their order, each once.
pub fn drivers_of(
    alloc: Global,
    nodes: &[Node],
    signals: usize,
) -> Result<Vec<Vec<Driver>>, NoMemory>
    requires few { length nodes.now < 2 ^ 32 }
    ensures length { IfOk result (λ table. length table.items ≡ signals) }
    ensures drives { IfOk result (λ table. (a s i : ℕ) → s < signals → i < 128
        → drives_in (row_in table.items s) a i ≡ drives_at (map node_of nodes.now) a s i) }
    ensures rises { IfOk result (λ table. AllRise table.items (length nodes.now)) }
{
    let mut table = empty_table(alloc, signals)?;
    for k in 0..nodes.len() {
        let touches = drives_of(alloc, &nodes[k])?;
        add_touches(&mut table, DriverId(k as u32), &touches)?;
    }
    Ok(table)
}

// The bits that a clocked block may write.
fn writes_of(alloc: Global, block: &Stmt) -> Result<Vec<Touch>, NoMemory>
    ensures { IfOk result (λ touches. Adds [] touches.items (block_writes (stmt_of block.now))) }
{
    let spans = later_spans(alloc, block)?;
    touches_of(alloc, &spans)
}

/// For each of so many signals the clocked blocks that may write bits of it, in their order, each once.
pub fn writers_of(
    alloc: Global,
    blocks: &[Stmt],
    signals: usize,
) -> Result<Vec<Vec<Driver>>, NoMemory>
    requires few { length blocks.now < 2 ^ 32 }
    ensures length { IfOk result (λ table. length table.items ≡ signals) }
    ensures drives { IfOk result (λ table. (a s i : ℕ) → s < signals → i < 128
        → drives_in (row_in table.items s) a i ≡ writes_at (map stmt_of blocks.now) a s i) }
    ensures rises { IfOk result (λ table. AllRise table.items (length blocks.now)) }
{
    let mut table = empty_table(alloc, signals)?;
    for k in 0..blocks.len() {
        let touches = writes_of(alloc, &blocks[k])?;
        add_touches(&mut table, DriverId(k as u32), &touches)?;
    }
    Ok(table)
}
