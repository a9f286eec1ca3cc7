// A design as a machine over rows of its inputs, with operations on registers.
ghost use Rattle.std.specs.Prelude.{◌≡◌, refl, true};
ghost use Rattle.cycle_eval.specs.Designs.{design_flat, work_of};
ghost use Rattle.cycle_eval.specs.Kits.{Fits, IsValid, reset_of, run_of, carried_of};
ghost use Rattle.stimulus.specs.Rows.{are_same as are_alike};
ghost use Rattle.stimulus.specs.SameRows.{same_is as alike_is};
ghost use Rattle.cycle_eval.specs.DesignLaws.{run_more, run_fits, reset_fits, carried_fits};

use crate::design::Design;
use ls_text::NoMemory;
use machine::Machine;
use machine::row_runs::RowRuns;
use machine::steps::Steps;
use reg_ops::RegOps;
use state_layout::SlotState;
use std::alloc::Global;
use std::sync::ledger::Ledger;
use stimulus::Row;

impl Machine for Design {
    type State = SlotState;

    type Row = Row;

    type Ops = RegOps;

    ghost kit = { record {
      start = λ m. reset_of (design_flat m);
      seg = λ m rows s. run_of (design_flat m) rows s;
      carried = λ old m ops s. carried_of ops (design_flat old) (design_flat m) s;
      alike = λ m x y. are_alike x y;
    } };

    ghost work = { λ m. work_of m };

    ghost fits = { λ m s. Fits (design_flat m) s };

    ghost valid = { λ old m ops. IsValid ops (design_flat old) (design_flat m) };

    fn reset(&self, alloc: Global) -> Result<SlotState, NoMemory> {
        self.reset_state(alloc)
    }

    fn advance<L: Ledger>(
        &self,
        alloc: Global,
        rows: &RowRuns<Row>,
        from: &SlotState,
        a: u64,
        b: u64,
        steps: &mut Steps<L>,
    ) -> Result<SlotState, NoMemory> {
        if a == b {
            return from.share();
        }
        let mut words = self.loaded(alloc, from)?;
        self.run(&mut words, rows, a, b, steps);
        self.state_of(&words, from)
    }

    fn carry(
        &self,
        alloc: Global,
        old: &Self,
        ops: &RegOps,
        state: &SlotState,
    ) -> Result<SlotState, NoMemory> {
        self.carried(alloc, old, ops.as_slice(), state)
    }

    fn same(&self, x: &SlotState, y: &SlotState) -> bool {
        x.same(y)
    }

    fn share(&self, _alloc: Global, x: &SlotState) -> Result<SlotState, NoMemory> {
        x.share()
    }

    fn share_parts(&self, state: &mut SlotState, near: &SlotState)
        ensures { state.new ≡ state.old }
    {
        state.share_with(near);
    }

    fn same_row(one: &Row, other: &Row) -> bool
        ensures same { result ≡ true → one.now ≡ other.now }
        ensures all { one.now ≡ other.now → result ≡ true }
    {
        one.same(other)
    }

    ghost laws = { record {
      seg_none = λ m s. refl;
      seg_more = λ m xs ys s. run_more (design_flat m) xs ys s;
      start_fits = λ m. reset_fits (design_flat m);
      seg_fits = λ m xs s h. run_fits (design_flat m) xs s h;
      carried_fits = λ m n ops s v h. carried_fits ops (design_flat m) (design_flat n) s;
      alike_is = λ m x y p q. alike_is x y;
    } };
}
