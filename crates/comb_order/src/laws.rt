// What is so of loops, in graphs and in the nodes of designs.
ghost use Rattle.std.specs.Prelude.{ℕ, List, length};
ghost use Rattle.typed_ir.specs.Nodes.{FlatNode, IsOrder, drives_at, reads_at};
ghost use Rattle.typed_ir.specs.Orders.{IsOrderOf, Precedes};
ghost use Rattle.comb_order.specs.Graphs.{HasEdge};
ghost use Rattle.comb_order.specs.Loops.{HasNoLoop, HasOneLoop};

/// Where an order exists there is no loop. There is one loop at most: the walk that ends in it begins at the least node that can't
/// be placed, and each of its steps is fixed.
#[tactic(none)]
pub fn loop_says()
    ensures no_loop { (nodes : List FlatNode) (order : List ℕ) → IsOrder nodes order
        → HasNoLoop (Precedes (drives_at nodes) (reads_at nodes)) (length nodes) }
    ensures one_loop { (nodes : List FlatNode) → HasOneLoop (Precedes (drives_at nodes) (reads_at nodes)) (length nodes) }
    ensures no_loop_in_graph { (rows : List (List ℕ)) (order : List ℕ) → IsOrderOf (HasEdge rows) (length rows) order
        → HasNoLoop (HasEdge rows) (length rows) }
    ensures one_loop_in_graph { (rows : List (List ℕ)) → HasOneLoop (HasEdge rows) (length rows) }
{}
