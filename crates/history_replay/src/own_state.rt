// A state together with the version whose design has it.
ghost use Rattle.std.specs.Arc.{arc_value};
ghost use Rattle.cycle_eval.specs.Designs.{design_flat};
ghost use Rattle.cycle_eval.specs.Kits.{Fits};

use book_history::version::Version;
use cycle_eval::Design;
use state_layout::SlotState;
use std::alloc::Global;
use std::sync::Arc;

/// A state, which fits the design of its version.
#[derive(Drop)]
pub struct OwnState {
    pub version: Arc<Version<Design>, Global>,
    pub state: SlotState,
    ghost fits: { Fits (design_flat (arc_value (arc_value version).machine)) state },
}
