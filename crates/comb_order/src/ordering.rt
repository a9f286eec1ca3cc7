// An order of the nodes of a design, or the loop.
ghost use Rattle.std.specs.Prelude.{◌≡◌, true, ℕ, List, IfOk, IfErr, MatchResult, length};
ghost use Rattle.typed_ir.specs.Linkeds.{flat};
ghost use Rattle.typed_ir.specs.Nodes.{IsOrder};
ghost use Rattle.comb_order.specs.Graphs.{rows_of};
ghost use Rattle.comb_order.specs.Driving.{AreRows, IsGraph};
ghost use Rattle.comb_order.specs.Loops.{HasNoLoop};
ghost use Rattle.comb_order.specs.Refusals.{NodeBefore, IsRefusal, is_loop};

use crate::drivers::drivers_of;
use crate::edges::edges_of;
use crate::ranking::ranks_of;
use crate::refusing::{OrderRefusal, ordered};
use ls_text::NoMemory;
use std::alloc::Global;
use typed_ir::{Flat, Linked, NodeId};

// The graph of a design's nodes.
fn graph_of(alloc: Global, design: &Flat) -> Result<Vec<Vec<NodeId>>, NoMemory>
    ensures rows { IfOk result (λ rows. AreRows (length (flat design.now).nodes) (rows_of rows.items)) }
    ensures graph { IfOk result (λ rows. IsGraph (flat design.now).nodes (rows_of rows.items)) }
{
    let table = drivers_of(alloc, &design.nodes, design.signals.len())?;
    let rows = edges_of(alloc, &design.nodes, &table)?;
    Ok(rows)
}

/// An order of the nodes of a design, each once, after those that drive a bit that it reads: just where there is no loop. Where
/// there is one it is answered, listed along predecessors from its least node, and then there is no order. Want of memory is
/// `NoMemory`.
pub fn order(alloc: Global, design: &Flat) -> Result<Vec<NodeId>, OrderRefusal>
    ensures order { IfOk result (λ order. IsOrder (flat design.now).nodes order.items) }
    ensures exactly { MatchResult result (λ _. HasNoLoop (NodeBefore (flat design.now).nodes) (length (flat design.now).nodes))
        (λ refusal. IsRefusal (NodeBefore (flat design.now).nodes) (length (flat design.now).nodes) refusal) }

    // Where the loop is answered no order exists.
    ensures none { IfErr result (λ refusal. is_loop refusal ≡ true → (order : List ℕ) → IsOrder (flat design.now).nodes order → ⊥) }
{
    let graph = match graph_of(alloc, design) {
        Ok(graph) => graph,
        Err(_) => return Err(OrderRefusal::NoMemory),
    };
    let ranks = match ranks_of(alloc, design, &graph) {
        Ok(ranks) => ranks,
        Err(_) => return Err(OrderRefusal::NoMemory),
    };
    ordered(alloc, &graph, &ranks)
}

/// The design with an order of its nodes, just where there is no loop; else the loop, as `order` says.
pub fn linked(alloc: Global, design: Flat) -> Result<Linked, OrderRefusal>
    ensures design { IfOk result (λ linked. linked.design ≡ design) }
    ensures exactly { MatchResult result (λ _. HasNoLoop (NodeBefore (flat design).nodes) (length (flat design).nodes))
        (λ refusal. IsRefusal (NodeBefore (flat design).nodes) (length (flat design).nodes) refusal) }

    // Where the loop is answered no order exists.
    ensures none { IfErr result (λ refusal. is_loop refusal ≡ true → (order : List ℕ) → IsOrder (flat design).nodes order → ⊥) }
{
    match order(alloc, &design) {
        Ok(order) => Ok(Linked { design, order }),
        Err(refusal) => Err(refusal),
    }
}
