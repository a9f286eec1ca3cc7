// What linking keeps.
ghost use Rattle.std.specs.Prelude.{◌≡◌, ◌<◌, true, map, length};
ghost use Rattle.typed_ir.specs.Nodes.{are_legal};
ghost use Rattle.typed_ir.specs.Orders.{Each};
ghost use Rattle.typed_ir.specs.Cycles.{Signal};
ghost use Rattle.typed_ir.specs.Flats.{IsFlat};
ghost use Rattle.typed_ir.specs.Example.{tree};
ghost use Rattle.typed_ir.specs.Trees.{Instances, AreSound, AreLegal, is_legal_block, flat_of_tree};

/// The flat design of a tree of sound units keeps what a flat design keeps; and there are such trees.
#[tactic(none)]
pub fn linking_is_sound()
    ensures sound { (x : Instances) → AreSound x → IsFlat (flat_of_tree x) }
    ensures legal { (x : Instances) → AreLegal x → are_legal (flat_of_tree x).nodes (map (λ (s : Signal). s.width) (flat_of_tree x).signals) ≡ true }
    ensures blocks { (x : Instances) → AreLegal x
        → Each (λ st. is_legal_block (map (λ (s : Signal). s.width) (flat_of_tree x).signals) st ≡ true) (flat_of_tree x).clocked }
    ensures registers { (x : Instances) → AreSound x → Each (λ s. s < length (flat_of_tree x).signals) (flat_of_tree x).registers }
    ensures inputs { (x : Instances) → AreSound x → Each (λ s. s < length (flat_of_tree x).signals) (flat_of_tree x).inputs }
    ensures example { AreSound tree × AreLegal tree }
{}
