// The nodes that can be placed next stand in a heap, by their turns.
ghost use Rattle.std.specs.Prelude.{◌≡◌, ◌<◌, ℕ, [], ◌∷◌, ◌++◌, length, IfOk, IfSome, IfNone, IsPermutation};
ghost use Rattle.typed_ir.specs.Orders.{Member};
ghost use Rattle.comb_order.specs.Ready.{nodes_in};

use crate::turn::Turn;
use std::alloc::AllocError;
use std::cmp::Reverse;
use std::collections::BinaryHeap;
use typed_ir::NodeId;

/// Nodes that are free join those that are ready. Each has a rank.
pub fn make_ready(
    free: &mut Vec<NodeId>,
    ranks: &[usize],
    ready: &mut BinaryHeap<Reverse<Turn>>,
) -> Result<(), AllocError>
    requires ranked { (t : ℕ) → Member t free.old.items → t < length ranks.now }
    ensures none_left { IfOk result (λ _. free.new.items ≡ []) }
    ensures all { IfOk result (λ _. IsPermutation (free.old.items ++ nodes_in ready.old) (nodes_in ready.new)) }
{
    while let Some(node) = free.pop() {
        let rank = ranks[node.index()];
        ready.push(Reverse(Turn {
            rank,
            node: node.number(),
        }))?;
    }
    Ok(())
}

/// The one of them that comes first.
pub fn next_ready(ready: &mut BinaryHeap<Reverse<Turn>>) -> Option<NodeId>
    ensures one { IfSome result (λ node. IsPermutation (nodes_in ready.old) (node ∷ nodes_in ready.new)) }
    ensures none { IfNone result (nodes_in ready.old ≡ []) }
{
    match ready.pop() {
        Some(Reverse(turn)) => Some(NodeId(turn.node)),
        None => None,
    }
}
