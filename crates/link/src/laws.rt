// What tables of instances stand for, and that what a loop shows is named.
ghost use Rattle.std.specs.Prelude.{◌≡◌, true, false, ℕ, List, ◌∷◌, map, length};
ghost use Rattle.typed_ir.specs.Nodes.{FlatNode};
ghost use Rattle.typed_ir.specs.Orders.{Each, Member, at_or};
ghost use Rattle.typed_ir.specs.declared.instance.Instance.{Instance};
ghost use Rattle.typed_ir.specs.declared.unit_parts.UnitParts.{UnitParts};
ghost use Rattle.typed_ir.specs.Instances.{parent_of, is_depth_first};
ghost use Rattle.typed_ir.specs.Trees.{Instances};
ghost use Rattle.comb_order.specs.Loops.{IsLoop};
ghost use Rattle.comb_order.specs.Refusals.{NodeBefore};
ghost use Rattle.link.specs.Listings.{IsTreeOf};
ghost use Rattle.link.specs.Names.{has_target, IsShown};

/// Each table of instances that is depth first, with as many units, is that of a tree, and of one alone.
#[tactic(none)]
pub fn trees_of_tables()
    ensures some { (xs : List Instance) (us : List UnitParts) → is_depth_first (map parent_of xs) ≡ true → length us ≡ length xs
        → (t : Instances) × IsTreeOf xs us t }
    ensures one { (xs : List Instance) (us : List UnitParts) (s t : Instances) → IsTreeOf xs us s → IsTreeOf xs us t → s ≡ t }
{}

/// Each node of a loop has a target, by which it is named, where each block tells one of its own.
#[tactic(none)]
pub fn loops_are_named()
    ensures { (nodes : List FlatNode) (first : ℕ) (rest : List ℕ) → Each IsShown nodes → IsLoop (NodeBefore nodes) (length nodes) first rest
        → (k : ℕ) → Member k (first ∷ rest) → at_or has_target false nodes k ≡ true }
{}
