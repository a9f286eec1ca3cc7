// Cycles of the design that runs.
ghost use Rattle.std.specs.Prelude.{◌≡◌, ◌≤◌, ◌<◌, ◌+◌, ◌-◌, ◌*◌, ◌^◌, ◌++◌, ◌∷◌, [], false, length, replicate, take, Some, IfOk, OnErr, OnOk};
ghost use Rattle.machine.specs.Rows.{slice};
ghost use Rattle.book_history.specs.Book.{Runs as RunsEvent};
ghost use Rattle.checkpoint_book.specs.Views.{HasSessionRoom, IsOpened, cycle_in, work_in};
ghost use Rattle.command_read.specs.Asking.{Runs};
ghost use Rattle.cycle_eval.specs.Designs.{work_of};
ghost use Rattle.stimulus.specs.Records.{limit_of, rows_of};
ghost use Rattle.stimulus.specs.Rows.{are_same, names_set};
ghost use Rattle.wave_report.specs.Replies.{run_text};
ghost use Rattle.live_session.specs.Beside.{Stands};
ghost use Rattle.live_session.specs.Kept.{IsKept};
ghost use Rattle.live_session.specs.Logs.{book_in};
ghost use Rattle.live_session.specs.Runs.{run_code, rows_behind};
ghost use Rattle.live_session.specs.Turns.{Accepts, AnswersIn, StopsIn};

use crate::limits::Limits;
use crate::refusing::refused_line;
use crate::reply::Reply;
use crate::running::Running;
use crate::setting::has_each_once;
use checkpoint_book::book::Book;
use cycle_eval::Design;
use ls_text::{Names, NoMemory};
use machine::steps::Steps;
use std::alloc::Global;
use std::sync::Arc;
use std::sync::ledger::Ledger;
use stimulus::{Record, RecordRefusal, Row};
use wave_report::{ReplyKind, reply_line};

/// The most cycles of one run.
const MAX_RUN: u64 = 1_000_000_000;

// The line of a run that ends at this cycle.
fn run_reply(alloc: Global, cycle: u64) -> Result<Reply, NoMemory>
    ensures { IfOk result (Accepts (run_text cycle)) }
{
    Ok(Reply::accepted(reply_line(alloc, &ReplyKind::Run { cycle })?))
}

// Adds the row so many times to a record, where its names and the room allow that: else the code of the refusal, behind which the rows are as before.
fn recorded(
    record_: &mut Record,
    row: &Arc<Row, Global>,
    cycles: u64,
    has_room: bool,
) -> Result<Option<u8>, NoMemory>
    requires some { 1 ≤ cycles }
    requires room { length (rows_of record_.old) + cycles ≤ 2 ^ 64 - 1 }
    ensures code { IfOk result (λ code. code
        ≡ run_code (limit_of record_.old) (names_set are_same length (rows_of record_.old ++ replicate cycles row.now.value)) has_room) }
    ensures rows { IfOk result (λ code. rows_of record_.new ≡ rows_behind code (rows_of record_.old) (replicate cycles row.now.value)) }
    ensures before { OnErr result (rows_of record_.new ≡ rows_of record_.old) }
    ensures limit { limit_of record_.new ≡ limit_of record_.old }
{
    let from = record_.len();
    match record_.append(Arc::try_clone(row)?, cycles) {
        Ok(()) if has_room => Ok(None),
        Ok(()) => {
            record_.cut(from);
            Ok(Some(68))
        }
        Err(RecordRefusal::StimulusFull) => Ok(Some(69)),
        Err(RecordRefusal::NoMemory) => Err(NoMemory),
    }
}

// Runs the book over the rows of a record from a cycle on, which are all that the book hasn't run. No more than these cycles are counted.
fn advance<L: Ledger>(
    alloc: Global,
    book: &mut Book<Design>,
    record_: &Record,
    from: u64,
    steps: &mut Steps<L>,
) -> Result<(), NoMemory>
    requires opened { IsOpened (book_in book.old) }
    requires starts { from ≡ cycle_in (book_in book.old) }
    requires some { from < length (rows_of record_.now) }
    requires bound { length (rows_of record_.now) ≤ 2 ^ 40 }
    requires room { HasSessionRoom book.old 1 }
    ensures settings { book.new.settings ≡ book.old.settings }
    ensures ok { OnOk result (book.new.events ≡ book.old.events
        ++ RunsEvent (length (rows_of record_.now) - from) (slice (rows_of record_.now) from (length (rows_of record_.now))) ∷ []) }
    ensures err { OnErr result (book.new.events ≡ book.old.events) }
    ensures counted { steps.new ≤ steps.old + (length (rows_of record_.now) - from) * work_in work_of (book_in book.old) }
{
    let to = record_.len();
    let rows = record_.slice(alloc, from, to)?;
    book.run(rows, to - from, steps)
}

// The same. Where memory runs out, the first `from` rows stay.
fn advance_or_cut<L: Ledger>(
    alloc: Global,
    book: &mut Book<Design>,
    record_: &mut Record,
    from: u64,
    steps: &mut Steps<L>,
) -> Result<(), NoMemory>
    requires opened { IsOpened (book_in book.old) }
    requires starts { from ≡ cycle_in (book_in book.old) }
    requires some { from < length (rows_of record_.old) }
    requires bound { length (rows_of record_.old) ≤ 2 ^ 40 }
    requires room { HasSessionRoom book.old 1 }
    ensures settings { book.new.settings ≡ book.old.settings }
    ensures ok { OnOk result (book.new.events ≡ book.old.events
        ++ RunsEvent (length (rows_of record_.old) - from) (slice (rows_of record_.old) from (length (rows_of record_.old))) ∷ []) }
    ensures rows { OnOk result (rows_of record_.new ≡ rows_of record_.old) }
    ensures err { OnErr result (book.new.events ≡ book.old.events) }
    ensures before { OnErr result (rows_of record_.new ≡ take from (rows_of record_.old)) }
    ensures limit { limit_of record_.new ≡ limit_of record_.old }
    ensures counted { steps.new ≤ steps.old + (length (rows_of record_.old) - from) * work_in work_of (book_in book.old) }
{
    match advance(alloc, book, record_, from, steps) {
        Ok(()) => Ok(()),
        Err(NoMemory) => {
            record_.cut(from);
            Err(NoMemory)
        }
    }
}

impl Running {
    /// Runs so many cycles more under the current row, or none: 64 where they are none or above 1,000,000,000, 65 above the most cycles, 69 above the
    /// most names set, 68 where the session's room is full. No more than these cycles are counted.
    pub fn run<L: Ledger>(
        &mut self,
        alloc: Global,
        names: &Names,
        limits: Limits,
        book: &mut Book<Design>,
        line: u64,
        cycles: u64,
        steps: &mut Steps<L>,
    ) -> Result<Reply, NoMemory>
        requires kept { IsKept names.now limits self.old }
        requires stands { Stands limits (Some self.old) book.old }
        requires most { limits.cycles ≤ 2 ^ 40 }
        ensures answers { IfOk result (AnswersIn names.now limits (Runs line cycles) self.old self.new book.old book.new) }
        ensures goes_on { IfOk result (λ r. r.quit ≡ false) }
        ensures stops { OnErr result (StopsIn names.now limits (Runs line cycles) self.old self.new book.old book.new) }
        ensures kept { IsKept names.now limits self.new }
        ensures stands { Stands limits (Some self.new) book.new }
        ensures counted { steps.new ≤ steps.old + cycles * work_of self.old.version.value.machine.value }
    {
        has_each_once(names);
        if cycles == 0 {
            return refused_line(alloc, names, 64, line);
        }
        if cycles > MAX_RUN {
            return refused_line(alloc, names, 64, line);
        }
        let from = self.record_.len();
        if from + cycles > limits.cycles {
            return refused_line(alloc, names, 65, line);
        }
        let reply = run_reply(alloc, from + cycles)?;
        let has_room = self.charge < limits.rooms.session;
        if let Some(code) = recorded(&mut self.record_, &self.row, cycles, has_room)? {
            return refused_line(alloc, names, code, line);
        }
        match advance_or_cut(alloc, book, &mut self.record_, from, steps) {
            Ok(()) => {
                book.legal();
                self.charge += 1;
                Ok(reply)
            }
            Err(NoMemory) => Err(NoMemory),
        }
    }
}
