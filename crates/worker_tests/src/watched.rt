// A machine whose runs are watched.
ghost use Rattle.std.specs.Prelude.{◌≡◌, ℕ, List, [], ◌++◌, Bool, true, ◌↔◌, eqb, refl};
ghost use Rattle.machine.specs.Tally.{tally_after};
ghost use Rattle.machine.specs.TallyLaws.{tally_more, eqb_is};

use crate::watch::Watch;
use ls_text::NoMemory;
use machine::Machine;
use machine::row_runs::RowRuns;
use machine::steps::Steps;
use machine::tally::TallyMachine;
use std::alloc::Global;
use std::sync::ledger::Ledger;

/// The machine that adds, whose runs are watched so.
#[derive(Drop)]
pub struct WatchedMachine {
    adds: TallyMachine,
    watch: Watch,
}

impl WatchedMachine {
    /// The machine that adds so much.
    pub fn new(add: u64, watch: Watch) -> WatchedMachine {
        WatchedMachine {
            adds: TallyMachine { add },
            watch,
        }
    }
}

impl Machine for WatchedMachine {
    type State = u64;

    type Row = u64;

    type Ops = ();

    ghost kit = { record { start = λ m. 0; seg = λ m rows s. tally_after m.adds.add rows s; carried = λ old m ops s. s; alike = λ m x y. eqb x y } };

    ghost work = { λ m. 1 };

    ghost fits = { λ m s. Unit {0} };

    ghost valid = { λ old m ops. Unit {0} };

    fn reset(&self, _alloc: Global) -> Result<u64, NoMemory> {
        Ok(0)
    }

    fn advance<L: Ledger>(
        &self,
        alloc: Global,
        rows: &RowRuns<u64>,
        from: &u64,
        a: u64,
        b: u64,
        steps: &mut Steps<L>,
    ) -> Result<u64, NoMemory> {
        if !self.watch.begin(a) {
            return Err(NoMemory);
        }
        self.adds.advance(alloc, rows, from, a, b, steps)
    }

    fn carry(&self, _alloc: Global, _old: &Self, _ops: &(), state: &u64) -> Result<u64, NoMemory> {
        Ok(*state)
    }

    fn same(&self, x: &u64, y: &u64) -> bool {
        *x == *y
    }

    fn share(&self, _alloc: Global, x: &u64) -> Result<u64, NoMemory> {
        Ok(*x)
    }

    ghost laws = { record {
      seg_none = λ m s. refl;
      seg_more = λ m xs ys s. tally_more m.adds.add xs ys s;
      start_fits = λ m. tt;
      seg_fits = λ m xs s h. tt;
      carried_fits = λ m n ops s v h. tt;
      alike_is = λ m x y p q. eqb_is x y;
    } };
}
