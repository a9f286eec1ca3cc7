// The graph of the nodes: an edge where one drives a bit that another reads.
ghost use Rattle.std.specs.Prelude.{◌≡◌, ◌<◌, ◌^◌, ◌==◌, ◌&&◌, ◌||◌, not, nat_lt, ℕ, [], IfOk, length, map};
ghost use Rattle.typed_ir.specs.FlatNodes.{node_of};
ghost use Rattle.typed_ir.specs.Touches.{is_block};
ghost use Rattle.typed_ir.specs.Rows.{row_in};
ghost use Rattle.comb_order.specs.Graphs.{times, rows_of, row_at};
ghost use Rattle.comb_order.specs.Driving.{common, drives_some, drives_any, edge, ends_with, IsRow, AreRows, IsTable, IsPlain, IsGraph};

use crate::drivers::Driver;
use ls_text::NoMemory;
use std::alloc::Global;
use typed_ir::{Node, NodeId, SignalId, Touch, reads_of};

/// Whether two masks have a bit in common.
pub fn meet(a: u128, b: u128) -> bool
    ensures { result ≡ common a b }
{
    a & b != 0
}

// Whether a node is a combinational block.
fn is_block(node: &Node) -> bool
    ensures { result ≡ is_block (node_of node.now) }
{
    match node {
        Node::Drive { .. } => false,
        Node::Block { .. } => true,
    }
}

// Whether a row ends with a node.
fn ends_with(row: &[NodeId], b: NodeId) -> bool
    ensures { result ≡ ends_with row.now b }
{
    !row.is_empty() && row[row.len() - 1].number() == b.number()
}

// An edge to the node that is being looked at, once.
fn add_edge(row: &mut Vec<NodeId>, b: NodeId) -> Result<(), NoMemory>
    requires { IsRow b row.old.items }
    ensures row { IfOk result (λ _. IsRow b row.new.items) }
    ensures edges { IfOk result (λ _. (t : ℕ) → nat_lt 0 (times t row.new.items) ≡ (nat_lt 0 (times t row.old.items) || (t == b))) }
{
    if !ends_with(row, b) {
        row.push(b)?;
    }
    Ok(())
}

// An edge to node b from the driver of a signal, where it drives a bit of the mask; a block has none from itself.
fn connect_driver(
    rows: &mut [Vec<NodeId>],
    b: NodeId,
    block: bool,
    mask: u128,
    driver: Driver,
) -> Result<(), NoMemory>
    requires { AreRows b (rows_of rows.old) }
    ensures rows { IfOk result (λ _. AreRows b (rows_of rows.new)) }
    ensures edges { IfOk result (λ _. (a t : ℕ) → a < length rows.old → edge (rows_of rows.new) a t
        ≡ (edge (rows_of rows.old) a t || ((t == b) && (((a == driver.item) && common driver.mask mask) && not (block && (a == b)))))) }
{
    let a = driver.item.index();
    if !meet(driver.mask, mask) || a >= rows.len() {
        return Ok(());
    }
    let from = driver.item.number();
    let to = b.number();
    if block && from == to {
        return Ok(());
    }
    add_edge(&mut rows[a], b)?;
    Ok(())
}

// Edges to node b from the drivers of a signal that drive bits of the mask.
fn connect_signal(
    rows: &mut [Vec<NodeId>],
    b: NodeId,
    block: bool,
    mask: u128,
    drivers: &[Driver],
) -> Result<(), NoMemory>
    requires { AreRows b (rows_of rows.old) }
    ensures rows { IfOk result (λ _. AreRows b (rows_of rows.new)) }
    ensures edges { IfOk result (λ _. (a t : ℕ) → a < length rows.old → edge (rows_of rows.new) a t
        ≡ (edge (rows_of rows.old) a t || ((t == b) && (drives_some drivers.now mask a && not (block && (a == b)))))) }
{
    for driver in drivers {
        connect_driver(rows, b, block, mask, *driver)?;
    }
    Ok(())
}

/// The drivers of a signal; none where there is no such signal.
pub fn drivers_at(table: &[Vec<Driver>], signal: SignalId) -> &[Driver]
    ensures { result.now ≡ row_in table.now signal }
{
    let index = signal.index();
    if index < table.len() {
        &table[index]
    } else {
        &[]
    }
}

// Edges to node b, whose text reads these bits.
fn connect(
    rows: &mut [Vec<NodeId>],
    b: NodeId,
    block: bool,
    touches: &[Touch],
    table: &[Vec<Driver>],
) -> Result<(), NoMemory>
    requires { AreRows b (rows_of rows.old) }
    ensures rows { IfOk result (λ _. AreRows b (rows_of rows.new)) }
    ensures edges { IfOk result (λ _. (a t : ℕ) → a < length rows.old → edge (rows_of rows.new) a t
        ≡ (edge (rows_of rows.old) a t || ((t == b) && (drives_any table.now touches.now a && not (block && (a == b)))))) }
{
    for touch in touches {
        connect_signal(rows, b, block, touch.mask, drivers_at(table, touch.signal))?;
    }
    Ok(())
}

// So many empty rows.
fn empty_rows(alloc: Global, count: usize) -> Result<Vec<Vec<NodeId>>, NoMemory>
    ensures length { IfOk result (λ rows. length rows.items ≡ count) }
    ensures empty { IfOk result (λ rows. (a : ℕ) → row_at (rows_of rows.items) a ≡ []) }
{
    let mut rows = Vec::new(alloc);
    for _node in 0..count {
        rows.push(Vec::new(alloc))?;
    }
    Ok(rows)
}

/// The graph of the nodes: from each node to those that read a bit which it drives.
pub fn edges_of(
    alloc: Global,
    nodes: &[Node],
    table: &[Vec<Driver>],
) -> Result<Vec<Vec<NodeId>>, NoMemory>
    requires few { length nodes.now < 2 ^ 32 }
    requires plain { IsPlain (map node_of nodes.now) }
    requires table { IsTable (map node_of nodes.now) table.now }
    ensures rows { IfOk result (λ rows. AreRows (length nodes.now) (rows_of rows.items)) }
    ensures graph { IfOk result (λ rows. IsGraph (map node_of nodes.now) (rows_of rows.items)) }
{
    let mut rows = empty_rows(alloc, nodes.len())?;
    for b in 0..nodes.len() {
        let node = &nodes[b];
        let touches = reads_of(alloc, node)?;
        connect(&mut rows, NodeId(b as u32), is_block(node), &touches, table)?;
    }
    Ok(rows)
}
