// Designs that can be run.
ghost use Rattle.std.specs.Prelude.{◌≡◌};
ghost use Rattle.std.specs.Arc.{arc_value};
ghost use Rattle.design_steps.specs.Programs.{IsProgramOf};
ghost use Rattle.state_layout.specs.Words.{register_widths};
ghost use Rattle.typed_ir.specs.Linkeds.{flat};

use design_steps::Program;
use state_layout::Layout;
use std::alloc::Global;
use std::sync::Arc;
use typed_ir::Linked;

/// A linked design that an evaluator runs.
#[derive(Drop)]
pub struct Design {
    pub(crate) linked: Linked,
    /// Where its registers stand in a state: all its states share it.
    pub(crate) layout: Arc<Layout, Global>,
    /// What it does in a cycle, as steps over words.
    pub(crate) program: Program,
    ghost laid: { arc_value layout ≡ register_widths (flat linked.design) },
    ghost runs: { ∥ IsProgramOf program linked ∥₁ },
}
