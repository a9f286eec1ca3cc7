// Machines that a checkpoint book can run, the rows that drive them, and the counter of their steps.
//
// The trait `Machine` stands here; `row_run`, `row_runs`, `stretch` and `merge` are rows as runs of equal ones, `steps` is the counter,
// and `tally` a machine for tests.
#![tactic(auto)]

ghost use Rattle.std.specs.Prelude.{◌≡◌, ℕ, ◌+◌, ◌*◌, ◌-◌, ◌≤◌, Bool, true, IfOk, OnOk};
ghost use Rattle.machine.specs.Kit.{Kit, Laws};
ghost use Rattle.machine.specs.Rows.{between, Covers};

pub mod merge;
pub mod row_run;
pub mod row_runs;
pub mod steps;
pub mod stretch;
pub mod tally;

use ls_text::NoMemory;
use row_runs::RowRuns;
use std::alloc::Global;
use std::sync::ledger::Ledger;
use steps::Steps;

/// A machine that takes one row a cycle. Its values, its states, its rows and the operations that carry a state from
/// one machine to the next may go to another thread and be read there.
pub trait Machine: Drop + Send + Sync + Sized {
    type State: Drop + Send + Sync;

    type Row: Drop + Send + Sync;

    type Ops: Drop + Send + Sync;

    /// What the machine does: its reset state, its run over a list of rows, carrying, and the test of equal states.
    ghost kit: { Kit Self Self.State Self.Row Self.Ops };

    /// The steps of one cycle.
    ghost work: { Self → ℕ };

    /// Which states are the machine's own.
    ghost fits: { Self → Self.State → Type 0 };

    /// Which operations carry from the first machine to the second.
    ghost valid: { Self → Self → Self.Ops → Type 0 };

    /// The state at cycle 0.
    fn reset(&self, alloc: Global) -> Result<Self::State, NoMemory>
        ensures { IfOk result (λ s. s ≡ kit.start self.now) };

    /// The state at cycle `b`, from the state at cycle `a`. The counter rises by `work` for each cycle; where memory
    /// runs out it has risen by no more than that.
    fn advance<L: Ledger>(
        &self,
        alloc: Global,
        rows: &RowRuns<Self::Row>,
        from: &Self::State,
        a: u64,
        b: u64,
        steps: &mut Steps<L>,
    ) -> Result<Self::State, NoMemory>
        requires covers { Covers rows.now a b }
        requires fits { fits self.now from.now }
        ensures value { IfOk result (λ s. s ≡ kit.seg self.now (between rows.now a b) from.now) }
        ensures taken { OnOk result (steps.new ≡ steps.old + (b - a) * work self.now) }
        ensures rises { steps.old ≤ steps.new }
        ensures most { steps.new ≤ steps.old + (b - a) * work self.now };

    /// The state of the old machine, carried into this one.
    fn carry(
        &self,
        alloc: Global,
        old: &Self,
        ops: &Self::Ops,
        state: &Self::State,
    ) -> Result<Self::State, NoMemory>
        requires fits { fits old.now state.now }
        requires ops { valid old.now self.now ops.now }
        ensures { IfOk result (λ s. s ≡ kit.carried old.now self.now ops.now state.now) };

    /// Whether two states are the same.
    fn same(&self, x: &Self::State, y: &Self::State) -> bool
        ensures { result ≡ kit.alike self.now x.now y.now };

    /// The same state once more.
    fn share(&self, alloc: Global, x: &Self::State) -> Result<Self::State, NoMemory>
        ensures { IfOk result (λ s. s ≡ x.now) };

    /// Lets a state share what it has in common with another one. What it says stays. A machine may do nothing.
    fn share_parts(&self, _state: &mut Self::State, _near: &Self::State)
        ensures { _state.new ≡ _state.old }
    {}

    /// Whether two rows are the same, so that a record keeps them once. A machine may answer false of any two.
    fn same_row(_one: &Self::Row, _other: &Self::Row) -> bool
        ensures { result ≡ true → _one.now ≡ _other.now }
    {
        false
    }

    ghost laws: { Laws kit fits valid };
}
