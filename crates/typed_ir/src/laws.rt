// Where an order exists, the wires are settled, in one way; and runs follow each other.
ghost use Rattle.std.specs.Prelude.{◌≡◌, ◌<◌, ◌+◌, ℕ, List};
ghost use Rattle.typed_ir.specs.Valuations.{Valuation};
ghost use Rattle.typed_ir.specs.Nodes.{IsOrder, drive_at};
ghost use Rattle.typed_ir.specs.Orders.{pass};
ghost use Rattle.typed_ir.specs.Cycles.{Flat, IsSound, Satisfies, wires, base, seg};

/// Of a sound design with an order, `wires` satisfies it, nothing else does, and one pass over the order gives it.
pub fn order_settles()
    ensures satisfies { (design : Flat) (order state inputs : List ℕ) → IsSound design → IsOrder design.nodes order
        → Satisfies design state inputs (wires design state inputs) }
    ensures only { (design : Flat) (order state inputs : List ℕ) → IsSound design → IsOrder design.nodes order
        → (v : Valuation) → Satisfies design state inputs v → v ≡ wires design state inputs }
    ensures pass { (design : Flat) (order state inputs : List ℕ) → IsSound design → IsOrder design.nodes order
        → pass (drive_at design.nodes) order (base design state inputs) ≡ wires design state inputs }
{}

/// A run goes on where another ended, under the rows of the later cycles; and a run depends on the rows of its cycles alone, and not on
/// their numbers.
#[tactic(none)]
pub fn runs_join()
    ensures more { (design : Flat) (rows : ℕ → List ℕ) (a m n : ℕ) (state : List ℕ)
        → seg design rows (a + m) n (seg design rows a m state) ≡ seg design rows a (m + n) state }
    ensures same { (design : Flat) (rows others : ℕ → List ℕ) (a b n : ℕ) (state : List ℕ)
        → ((t : ℕ) → t < n → rows (a + t) ≡ others (b + t)) → seg design rows a n state ≡ seg design others b n state }
{}
