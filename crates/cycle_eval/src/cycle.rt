// One cycle, in place.
ghost use Rattle.std.specs.Prelude.{◌≡◌, ◌+◌, ℕ, List, map, length};
ghost use Rattle.typed_ir.specs.Cycles.{step};
ghost use Rattle.design_steps.specs.Programs.{IsAt, values_in};
ghost use Rattle.cycle_eval.specs.Designs.{design_flat, work_of};

use crate::design::Design;
use machine::steps::Steps;
use std::sync::ledger::Ledger;

// So many steps more.
fn count_steps<L: Ledger>(count: usize, steps: &mut Steps<L>)
    ensures { steps.new ≡ steps.old + count }
{
    for _step in 0..count {
        steps.tick();
    }
}

impl Design {
    /// One cycle: the wires settle, whatever they hold, and the registers among the words go on to their next values. Nothing is cleared before
    /// or after it, and it takes no memory. Each node and each clocked block is one step.
    pub(crate) fn cycle<L: Ledger>(&self, words: &mut [u128], steps: &mut Steps<L>)
        requires { length words.old ≡ length self.now.program.beginning.items }
        ensures value { (state inputs : List ℕ) → IsAt self.now.program self.now.linked state inputs words.old
            → map (values_in self.now.program words.new) self.now.linked.design.registers.items ≡ step (design_flat self.now) state inputs }

        // It is ready for the next cycle under the same inputs.
        ensures ready { (state inputs : List ℕ) → IsAt self.now.program self.now.linked state inputs words.old
            → IsAt self.now.program self.now.linked (step (design_flat self.now) state inputs) inputs words.new }
        ensures taken { steps.new ≡ steps.old + work_of self.now }
    {
        self.program.cycle(&self.linked, words);
        count_steps(self.linked.design.nodes.len(), steps);
        count_steps(self.linked.design.clocked.len(), steps);
    }
}
