// Runs of a design, under a row a cycle.
ghost use Rattle.std.specs.Prelude.{◌≡◌, ◌≤◌, ◌<◌, ◌+◌, ◌-◌, ◌*◌, ℕ, List, [], IfOk, map, length};
ghost use Rattle.machine.specs.Rows.{between, Covers};
ghost use Rattle.typed_ir.specs.Cycles.{input, seg};
ghost use Rattle.design_steps.specs.Programs.{AreHeld, IsAt, values_in};
ghost use Rattle.cycle_eval.specs.Designs.{design_flat, work_of};
ghost use Rattle.cycle_eval.specs.Inputs.{row_values};
ghost use Rattle.cycle_eval.specs.Kits.{Fits, driven};
ghost use Rattle.reg_transform.specs.States.{state_values};

use crate::design::Design;
use ls_text::NoMemory;
use machine::row_runs::RowRuns;
use machine::steps::Steps;
use state_layout::SlotState;
use std::alloc::Global;
use std::sync::ledger::Ledger;
use stimulus::Row;

// The earlier of two cycles.
fn earlier(a: u64, b: u64) -> u64
    ensures first { result ≤ a }
    ensures second { result ≤ b }
    ensures either { result < b → result ≡ a }
{
    if a < b { a } else { b }
}

impl Design {
    /// The words that a run begins with: constants, the registers of a state, and all else 0.
    pub(crate) fn loaded(&self, alloc: Global, from: &SlotState) -> Result<Vec<u128>, NoMemory>
        requires { Fits (design_flat self.now) from.now }
        ensures long { IfOk result (λ words. length words.items ≡ length self.now.program.beginning.items) }
        ensures ready { IfOk result (λ words. IsAt self.now.program self.now.linked (state_values from.now) [] words.items) }
        ensures registers { IfOk result (λ words. map (values_in self.now.program words.items) self.now.linked.design.registers.items ≡ state_values from.now) }
    {
        let mut words = self.program.begin(alloc, &self.linked)?;
        self.load(from, &mut words);
        Ok(words)
    }

    /// So many cycles in place, all under one row, whatever the inputs were before. Only before the first of them are the inputs
    /// looked up by their names. It takes no memory.
    pub(crate) fn run_under<L: Ledger>(
        &self,
        words: &mut [u128],
        row: &Row,
        cycles: u64,
        steps: &mut Steps<L>,
    )
        requires { length words.old ≡ length self.now.program.beginning.items }
        ensures value { (state inputs : List ℕ)
            → IsAt self.now.program self.now.linked state inputs words.old
            → map (values_in self.now.program words.old) self.now.linked.design.registers.items ≡ state
            → map (values_in self.now.program words.new) self.now.linked.design.registers.items
            ≡ seg (design_flat self.now) (λ t. row_values (design_flat self.now) row.now) 0 cycles state }

        // It is ready for more cycles under the row.
        ensures ready { (state inputs : List ℕ)
            → IsAt self.now.program self.now.linked state inputs words.old
            → map (values_in self.now.program words.old) self.now.linked.design.registers.items ≡ state
            → IsAt self.now.program self.now.linked (seg (design_flat self.now) (λ t. row_values (design_flat self.now) row.now) 0 cycles state)
            (input (design_flat self.now) (row_values (design_flat self.now) row.now)) words.new }
        ensures taken { steps.new ≡ steps.old + cycles * work_of self.now }
    {
        self.write_inputs(words, row);
        for _cycle in 0..cycles {
            self.cycle(words, steps);
        }
    }

    /// The cycles from `a` to `b` - 1 in place, stretch by stretch of the rows. It takes no memory.
    pub(crate) fn run<L: Ledger>(
        &self,
        words: &mut [u128],
        rows: &RowRuns<Row>,
        a: u64,
        b: u64,
        steps: &mut Steps<L>,
    )
        requires covers { Covers rows.now a b }
        requires long { length words.old ≡ length self.now.program.beginning.items }
        ensures value { (state inputs : List ℕ)
            → IsAt self.now.program self.now.linked state inputs words.old
            → map (values_in self.now.program words.old) self.now.linked.design.registers.items ≡ state
            → map (values_in self.now.program words.new) self.now.linked.design.registers.items ≡ driven (design_flat self.now) (between rows.now a b) state }

        // Values fit their widths still.
        ensures held { (state inputs : List ℕ)
            → IsAt self.now.program self.now.linked state inputs words.old
            → map (values_in self.now.program words.old) self.now.linked.design.registers.items ≡ state
            → AreHeld self.now.program self.now.linked words.new }
        ensures taken { steps.new ≡ steps.old + (b - a) * work_of self.now }
    {
        let mut at = a;
        while at < b {
            let stretch = rows.stretch_at(at);
            let end = earlier(stretch.end, b);
            self.run_under(words, stretch.row, end - at, steps);
            at = end;
        }
    }
}
