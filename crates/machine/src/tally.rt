// The smallest machine: it adds. Books are tried with it.
ghost use Rattle.std.specs.Prelude.{◌≡◌, ℕ, List, [], ◌++◌, Bool, true, ◌↔◌, eqb, refl};
ghost use Rattle.machine.specs.Tally.{tally_after};
ghost use Rattle.machine.specs.TallyLaws.{tally_more, eqb_is};

use crate::Machine;
use crate::row_runs::RowRuns;
use crate::steps::Steps;
use ls_text::NoMemory;
use std::alloc::Global;
use std::sync::ledger::Ledger;

/// Each cycle adds `add` and the row, wrapping. A cycle is one step, and carrying keeps the number.
#[derive(Drop)]
pub struct TallyMachine {
    pub add: u64,
}

impl Machine for TallyMachine {
    type State = u64;

    type Row = u64;

    type Ops = ();

    ghost kit = { record { start = λ m. 0; seg = λ m rows s. tally_after m.add rows s; carried = λ old m ops s. s; alike = λ m x y. eqb x y } };

    ghost work = { λ m. 1 };

    ghost fits = { λ m s. Unit {0} };

    ghost valid = { λ old m ops. Unit {0} };

    fn reset(&self, _alloc: Global) -> Result<u64, NoMemory> {
        Ok(0)
    }

    fn advance<L: Ledger>(
        &self,
        _alloc: Global,
        rows: &RowRuns<u64>,
        from: &u64,
        a: u64,
        b: u64,
        steps: &mut Steps<L>,
    ) -> Result<u64, NoMemory> {
        let mut state = *from;
        for cycle in a..b {
            let row = rows.row_at(cycle);
            steps.tick();
            state = state.wrapping_add(self.add).wrapping_add(*row);
        }
        Ok(state)
    }

    fn carry(&self, _alloc: Global, _old: &Self, _ops: &(), state: &u64) -> Result<u64, NoMemory> {
        Ok(*state)
    }

    fn same(&self, x: &u64, y: &u64) -> bool {
        *x == *y
    }

    fn share(&self, _alloc: Global, x: &u64) -> Result<u64, NoMemory> {
        Ok(*x)
    }

    fn same_row(one: &u64, other: &u64) -> bool {
        *one == *other
    }

    ghost laws = { record {
      seg_none = λ m s. refl;
      seg_more = λ m xs ys s. tally_more m.add xs ys s;
      start_fits = λ m. tt;
      seg_fits = λ m xs s h. tt;
      carried_fits = λ m n ops s v h. tt;
      alike_is = λ m x y p q. eqb_is x y;
    } };
}
