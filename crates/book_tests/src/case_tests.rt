// The cases are played, and one book is tried whose rooms are as small as they can be.
ghost use Rattle.std.specs.Prelude.{◌≡◌, ◌<◌};

use crate::book_answer::BookAnswer;
use crate::calls::{adds, begin, run, run_changing};
use crate::case_rows::CASES;
use crate::history_rows::HISTORIES;
use crate::playing::play;
use crate::ticket_calls::take_open;
use book_history::rooms::Rooms;
use checkpoint_book::book::Book;
use machine::steps::Steps;
use machine::tally::TallyMachine;
use std::alloc::Global;
use std::marker::Brand;
use std::sync::ledger::{Blank, Ledger};
use std::test::Fail;

#[test]
fn books_answer_as_worked_by_hand(rt: HostRuntime) -> Result<(), Fail> {
    for case in CASES {
        play(&rt, rt.alloc(), *case)?;
    }
    Ok(())
}

#[test]
fn histories_are_as_worked_by_hand(rt: HostRuntime) -> Result<(), Fail> {
    for (case, entries) in HISTORIES {
        let history = play(&rt, rt.alloc(), *case)?;
        assert_eq!(rt; history.entries(), *entries, "{}", case.name);
    }
    Ok(())
}

/// The session's room of one entry is full after the open, and a close still has its place: two places are all that
/// these rooms reserve. Without a room for workers no claim is answered.
#[test]
fn a_room_of_one_entry(rt: HostRuntime) -> Result<(), Fail> {
    let alloc = rt.alloc();
    let rooms = Rooms {
        session: 1,
        workers: 0,
    };
    let mut boxed = Book::<TallyMachine>::new(alloc, 2, 1, rooms)?;
    let book: &mut Book<TallyMachine> = &mut boxed;
    assert_eq!(rt;
        (book.session_room(), book.version(), book.marks()),
        (1, 0, 0)
    );
    begin(book, adds(alloc, 1, 3)?)?;
    assert_eq!(rt;
        (book.session_room(), book.version(), book.marks()),
        (0, 1, 1)
    );
    let Err(answer) = take_open(book, alloc, 7)? else {
        return Err("a claim without room")?;
    };
    assert_eq!(rt; answer, BookAnswer::Nothing(true, false));
    book.close();
    let history = Book::into_history(boxed);
    assert_eq!(rt; history.entries().len(), 2);
    Ok(())
}

/// How many runs of rows the book holds after a thousand runs of one cycle with row 0, and after two runs over three rows
/// of 1 and two rows of 10 behind them.
fn runs_held<L: Ledger>(alloc: Global, blank: Blank) -> Result<usize, Fail>
    requires name { blank.name ≡ L.name }
    requires parts { blank.parts ≡ L.parts }
    requires some { 0 < blank.parts }
{
    let mut steps = Steps::<L>::start(blank);
    let rooms = Rooms {
        session: 2000,
        workers: 0,
    };
    let mut boxed = Book::<TallyMachine>::new(alloc, 100, 0, rooms)?;
    let book: &mut Book<TallyMachine> = &mut boxed;
    begin(book, adds(alloc, 1, 3)?)?;
    for _ in 0..1000 {
        run(book, alloc, 1, &mut steps)?;
    }
    run_changing(book, alloc, &mut steps)?;
    run_changing(book, alloc, &mut steps)?;
    let history = Book::into_history(boxed);
    Ok(history.runs().len())
}

/// Equal rows that follow each other are one run: that of 0, and those of 1, 10, 1 and 10.
#[test]
fn equal_rows_are_one_run(rt: HostRuntime) -> Result<(), Fail> {
    assert_eq!(rt; runs_held::<Brand>(rt.alloc(), Blank::new(1))?, 5);
    Ok(())
}
