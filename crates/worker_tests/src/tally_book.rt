// A book of a tally with two links to verify, for tests that settle it.
ghost use Rattle.std.specs.Prelude.{◌≡◌, [], false, IfOk, OnOk};
ghost use Rattle.checkpoint_book.specs.Views.{counts_of};

use book_history::rooms::Rooms;
use book_history::version::Version;
use checkpoint_book::book::Book;
use ls_text::NoMemory;
use machine::row_run::RowRun;
use machine::row_runs::RowRuns;
use machine::steps::Steps;
use machine::tally::TallyMachine;
use std::alloc::Global;
use std::sync::Arc;
use std::sync::ledger::Ledger;
use std::test::Fail;

/// The version of this number whose machine adds so much.
fn adds(
    alloc: Global,
    number: u64,
    add: u64,
) -> Result<Arc<Version<TallyMachine>, Global>, NoMemory>
    ensures { IfOk result (λ v. v.value.number ≡ number) }
{
    let machine = Arc::new(alloc, TallyMachine { add })?;
    Ok(Arc::new(alloc, Version { number, machine })?)
}

/// The first version of a book without entries, whose machine adds 3.
#[tactic(auto, using(segment_verify::proofs::Settling::still_open))]
fn begin(book: &mut Book<TallyMachine>, alloc: Global) -> Result<(), Fail>
    requires { book.old.events ≡ [] }
    ensures { OnOk result ((counts_of book.new).closed ≡ false) }
{
    if book.session_room() == 0 {
        return Err("no room")?;
    }
    book.open(adds(alloc, 1, 3)?)?;
    Ok(())
}

/// Runs five cycles over rows of 0.
#[tactic(auto, using(segment_verify::proofs::Settling::still_open))]
fn run_five<L: Ledger>(
    book: &mut Book<TallyMachine>,
    alloc: Global,
    steps: &mut Steps<L>,
) -> Result<(), Fail>
    requires { (counts_of book.old).closed ≡ false }
    ensures { OnOk result ((counts_of book.new).closed ≡ false) }
{
    let start = book.cycle();
    if book.version() == 0 || book.session_room() == 0 || start > 1000000 {
        return Err("no run")?;
    }
    let mut runs = Vec::new(alloc);
    runs.push(RowRun {
        start,
        end: start + 5,
        row: Arc::new(alloc, 0)?,
    })?;
    let rows = RowRuns::new(start, start + 5, runs)?;
    if rows.end() != start + 5 {
        return Err("no rows")?;
    }
    book.run(rows, 5, steps)?;
    Ok(())
}

/// The next version, whose machine adds 4.
#[tactic(auto, using(segment_verify::proofs::Settling::still_open))]
fn reload<L: Ledger>(
    book: &mut Book<TallyMachine>,
    alloc: Global,
    steps: &mut Steps<L>,
) -> Result<(), Fail>
    requires { (counts_of book.old).closed ≡ false }
    ensures { OnOk result ((counts_of book.new).closed ≡ false) }
{
    let current = book.version();
    if current == 0 || current > 1000 || book.session_room() == 0 {
        return Err("no reload")?;
    }
    let version = adds(alloc, current + 1, 4)?;
    book.reload(version, (), steps)?;
    Ok(())
}

/// A book behind five cycles and a reload: marks 0, 6, 12 and 16 at cycles 0, 2, 4 and 5, of whose links the last is joined. The
/// session has room for 97 entries then.
pub fn reloaded<L: Ledger>(
    alloc: Global,
    steps: &mut Steps<L>,
) -> Result<Box<Book<TallyMachine>>, Fail>
    ensures { IfOk result (λ b. (counts_of b.value).closed ≡ false) }
{
    let rooms = Rooms {
        session: 100,
        workers: 0,
    };
    let mut boxed = Book::<TallyMachine>::new(alloc, 2, 1, rooms)?;
    let book: &mut Book<TallyMachine> = &mut boxed;
    begin(book, alloc)?;
    run_five(book, alloc, steps)?;
    reload(book, alloc, steps)?;
    Ok(boxed)
}
