// What a design's layout is.
ghost use Rattle.std.specs.Prelude.{◌≡◌, ℕ, List, map};
ghost use Rattle.typed_ir.specs.declared.flat.Flat.{Flat};
ghost use Rattle.typed_ir.specs.FlatNodes.{node_of};
ghost use Rattle.typed_ir.specs.Nodes.{FlatNode, IsOrder};
ghost use Rattle.typed_ir.specs.Orders.{Each};
ghost use Rattle.typed_ir.specs.Statements.{stmt_of, sequence_of};
ghost use Rattle.design_steps.specs.declared.layout.Layout.{Layout};
ghost use Rattle.design_steps.specs.Plans.{IsApart};
ghost use Rattle.design_steps.specs.Right.{IsLaid, IsLaidNode};
ghost use Rattle.design_steps.specs.Views.{plan_of};
ghost use Rattle.design_steps.specs.Nodes.{as_statement};
ghost use Rattle.design_steps.specs.Statements.{stmt_code};
ghost use Rattle.design_steps.specs.Layings.{LaysOut, clocking_plan, left_of, mark_of, signals_of, view_of};

/// The layout of a design is apart, and so is that for its clocked blocks, which may be laid out by it: their widths are those of its
/// signals, and their constants stand somewhere. So may each node that leaves something to do, by the plan in which what it writes stands alone; and where the
/// nodes are in an order, its steps by that plan are those by the layout.
pub fn layouts_are_right()
    ensures apart { (l : Layout) (design : Flat) → LaysOut l design → IsApart (plan_of l) (signals_of design) (mark_of l) }
    ensures clocking { (l : Layout) (design : Flat) → LaysOut l design → IsApart (clocking_plan l) (signals_of design) (mark_of l) }
    ensures blocks { (l : Layout) (design : Flat) → LaysOut l design
        → IsLaid (clocking_plan l) (signals_of design) (sequence_of (map stmt_of design.clocked.items)) }
    ensures views { (l : Layout) (design : Flat) (k : FlatNode) → LaysOut l design → IsApart (view_of l k) (signals_of design) (mark_of l) }
    ensures nodes { (l : Layout) (design : Flat) (order : List ℕ) → LaysOut l design
        → Each (λ k. IsLaidNode (view_of l k) (signals_of design) k) (left_of l design order) }
    ensures code { (l : Layout) (design : Flat) (order : List ℕ) (mark : ℕ) → LaysOut l design → IsOrder (map node_of design.nodes.items) order
        → Each (λ k. stmt_code (plan_of l) (as_statement k) mark ≡ stmt_code (view_of l k) (as_statement k) mark) (left_of l design order) }
{}
