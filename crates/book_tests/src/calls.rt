// The calls of a case that draw no ticket and use none up.
ghost use Rattle.std.specs.Prelude.{◌≡◌, [], true, false};
ghost use Rattle.checkpoint_book.specs.Views.{counts_of};
ghost use Rattle.book_tests.specs.Held.{Keeps, StayOut};

use book_history::version::Version;
use checkpoint_book::book::Book;
use checkpoint_book::shown::Shown;
use ls_text::NoMemory;
use machine::row_run::RowRun;
use machine::row_runs::RowRuns;
use machine::steps::Steps;
use machine::tally::TallyMachine;
use std::alloc::Global;
use std::sync::Arc;
use std::sync::ledger::Ledger;
use std::test::Fail;

/// The version of this number whose machine adds so much.
pub fn adds(
    alloc: Global,
    number: u64,
    add: u64,
) -> Result<Arc<Version<TallyMachine>, Global>, NoMemory> {
    let machine = Arc::new(alloc, TallyMachine { add })?;
    Ok(Arc::new(alloc, Version { number, machine })?)
}

/// The first version of a book that has none.
pub fn begin(
    book: &mut Book<TallyMachine>,
    version: Arc<Version<TallyMachine>, Global>,
) -> Result<(), Fail>
    requires { book.old.events ≡ [] }
    ensures { (counts_of book.new).closed ≡ false }
{
    if version.number != 1 || book.session_room() == 0 {
        return Err("no version 1")?;
    }
    book.open(version)?;
    Ok(())
}

/// Runs so many cycles over rows of 0.
#[tactic(auto, using(crate::proofs::Tries::keeps_same))]
pub fn run<L: Ledger>(
    book: &mut Book<TallyMachine>,
    alloc: Global,
    n: u64,
    steps: &mut Steps<L>,
) -> Result<(), Fail>
    ensures { Keeps book.old book.new }
{
    let start = book.cycle();
    if book.version() == 0 || book.session_room() == 0 || n == 0 || n > 1000000 || start > 1000000 {
        return Err("no run")?;
    }
    let mut runs = Vec::new(alloc);
    runs.push(RowRun {
        start,
        end: start + n,
        row: Arc::new(alloc, 0)?,
    })?;
    let rows = RowRuns::new(start, start + n, runs)?;
    if rows.end() != start + n {
        return Err("no rows")?;
    }
    book.run(rows, n, steps)?;
    Ok(())
}

/// Runs three cycles over rows of 1 and two over rows of 10, which are two stored runs.
#[tactic(auto, using(crate::proofs::Tries::keeps_same))]
pub fn run_changing<L: Ledger>(
    book: &mut Book<TallyMachine>,
    alloc: Global,
    steps: &mut Steps<L>,
) -> Result<(), Fail>
    ensures { Keeps book.old book.new }
{
    let start = book.cycle();
    if book.version() == 0 || book.session_room() == 0 || start > 1000000 {
        return Err("no run")?;
    }
    let mut runs = Vec::new(alloc);
    runs.push(RowRun {
        start,
        end: start + 3,
        row: Arc::new(alloc, 1)?,
    })?;
    runs.push(RowRun {
        start: start + 3,
        end: start + 5,
        row: Arc::new(alloc, 10)?,
    })?;
    let rows = RowRuns::new(start, start + 5, runs)?;
    if rows.end() != start + 5 {
        return Err("no rows")?;
    }
    book.run(rows, 5, steps)?;
    Ok(())
}

/// The next version, whose machine adds so much; the answer is the chosen cycle.
#[tactic(auto, using(crate::proofs::Tries::keeps_same))]
pub fn reload<L: Ledger>(
    book: &mut Book<TallyMachine>,
    alloc: Global,
    add: u64,
    steps: &mut Steps<L>,
) -> Result<u64, Fail>
    ensures { Keeps book.old book.new }
{
    let current = book.version();
    if current == 0 || current > 1000 || book.session_room() == 0 {
        return Err("no reload")?;
    }
    let version = adds(alloc, current + 1, add)?;
    if version.number != current + 1 {
        return Err("no version")?;
    }
    Ok(book.reload(version, (), steps)?)
}

/// What a show answers.
#[tactic(auto, using(crate::proofs::Tries::keeps_same))]
pub fn show(book: &mut Book<TallyMachine>) -> Result<Shown, Fail>
    ensures { Keeps book.old book.new }
{
    if book.version() == 0 || book.session_room() == 0 {
        return Err("no show")?;
    }
    Ok(book.show())
}

/// Closes a book that isn't closed.
pub fn close(book: &mut Book<TallyMachine>)
    requires { (counts_of book.old).closed ≡ false }
    ensures outs { StayOut book.old book.new }
    ensures closed { (counts_of book.new).closed ≡ true }
{
    book.close();
}

/// The last mark's state.
pub fn last(book: &Book<TallyMachine>) -> Result<u64, Fail> {
    if book.version() == 0 {
        return Err("no version")?;
    }
    Ok(*book.current())
}
