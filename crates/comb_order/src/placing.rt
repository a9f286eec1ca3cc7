// Nodes are placed one by one, each once all that comes before it is placed: next comes the one of the least rank, and of one rank the one
// of the least number.
ghost use Rattle.std.specs.Prelude.{◌≡◌, ◌-◌, ◌≤◌, ◌<◌, ◌^◌, ◌++◌, ◌∷◌, [], ◌==◌, if◌then◌else◌, ℕ, length, slice_index, IfOk};
ghost use Rattle.typed_ir.specs.Valuations.{put};
ghost use Rattle.comb_order.specs.Graphs.{times, waiting, rows_of, lowered, released, count_of};
ghost use Rattle.comb_order.specs.Kahn.{IsClosed, IsPlacing};

use crate::counting::{free_nodes, in_degrees};
use crate::ready::{make_ready, next_ready};
use std::alloc::{AllocError, Global};
use std::collections::BinaryHeap;
use typed_ir::NodeId;

// A node loses one predecessor, and is free where that was its last.
fn lower(t: NodeId, counts: &mut [u32], free: &mut Vec<NodeId>) -> Result<(), AllocError>
    requires { 0 < slice_index counts.old t }
    ensures counts { count_of counts.new ≡ put (count_of counts.old) t (slice_index counts.old t - 1) }
    ensures free { IfOk result (λ _. free.new.items ≡ free.old.items ++ (if slice_index counts.old t == 1 then t ∷ [] else [])) }
{
    let place = t.index();
    let count = counts[place];
    counts[place] = count - 1;
    if count == 1 {
        free.push(t)?;
    }
    Ok(())
}

/// The nodes of a row lose one predecessor each, from the last to the first; those that are free now join the free ones.
pub fn release(row: &[NodeId], counts: &mut [u32], free: &mut Vec<NodeId>) -> Result<(), AllocError>
    requires { (x : ℕ) → times x row.now ≤ slice_index counts.old x }
    ensures counts { IfOk result (λ _. count_of counts.new ≡ lowered row.now (count_of counts.old)) }
    ensures free { IfOk result (λ _. free.new.items ≡ free.old.items ++ released row.now (count_of counts.old)) }
{
    let mut left = row.len();
    while 0 < left {
        left -= 1;
        lower(row[left], counts, free)?;
    }
    Ok(())
}

// Places the free nodes, and those that become free, until none is left.
fn place_free(
    alloc: Global,
    graph: &[Vec<NodeId>],
    ranks: &[usize],
    counts: &mut [u32],
    placed: &mut [bool],
    free: &mut Vec<NodeId>,
    order: &mut Vec<NodeId>,
) -> Result<(), AllocError>
    requires closed { IsClosed (rows_of graph.now) }
    requires ranked { length ranks.now ≡ length graph.now }
    requires start { IsPlacing (rows_of graph.now) placed.old (count_of counts.old) order.old.items free.old.items }
    ensures { IfOk result (λ _. IsPlacing (rows_of graph.now) placed.new (count_of counts.new) order.new.items []) }
{
    let mut ready = BinaryHeap::new(alloc);
    make_ready(free, ranks, &mut ready)?;
    'placing: while let Some(node) = next_ready(&mut ready) {
        let k = node.index();
        placed[k] = true;
        order.push(node)?;
        release(&graph[k], counts, free)?;
        make_ready(free, ranks, &mut ready)?;
    }
    Ok(())
}

/// The nodes that can be placed, in an order, and which these are.
#[derive(Drop)]
pub struct Placing {
    pub order: Vec<NodeId>,
    pub placed: Vec<bool>,
}

/// Places all that can be placed: always the node of the least rank of those that can be next. `ranks` has one for each node.
pub fn place_nodes(
    alloc: Global,
    graph: &[Vec<NodeId>],
    ranks: &[usize],
) -> Result<Placing, AllocError>
    requires ranked { length ranks.now ≡ length graph.now }
    requires closed { IsClosed (rows_of graph.now) }
    requires few { (t : ℕ) → waiting (rows_of graph.now) [] t < 2 ^ 32 }
    requires nodes { length graph.now < 2 ^ 32 }
    ensures { IfOk result (λ p. (c : ℕ → ℕ) × IsPlacing (rows_of graph.now) p.placed.items c p.order.items []) }
{
    let mut counts = in_degrees(alloc, graph)?;
    let mut placed = vec![in alloc; false; graph.len()]?;
    let mut free = free_nodes(alloc, &counts)?;
    let mut order = Vec::new(alloc);
    place_free(
        alloc,
        graph,
        ranks,
        &mut counts,
        &mut placed,
        &mut free,
        &mut order,
    )?;
    Ok(Placing { order, placed })
}
