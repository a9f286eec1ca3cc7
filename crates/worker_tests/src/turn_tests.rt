// A book that a reload left with two links to verify is settled through its turn in several ways, all worked by hand.
ghost use Rattle.std.specs.Prelude.{◌≡◌, ◌<◌, ◌+◌, ◌*◌, false, IfOk};
ghost use Rattle.book_history.specs.Readers.{IsOpened};
ghost use Rattle.checkpoint_book.specs.Views.{book_of, counts_of, HasSessionRoom};

use crate::tally_book::reloaded;
use book_turn::Turn;
use checkpoint_book::book::Book;
use checkpoint_book::shown::Shown;
use ls_port::OpenGate;
use machine::Machine;
use machine::steps::Steps;
use machine::tally::TallyMachine;
use std::alloc::Global;
use std::marker::Brand;
use std::sync::Wait;
use std::sync::ledger::{Blank, Ledger};
use std::test::Fail;
use turn_settle::settle;

/// Settles through a turn that is made for it, and gives the book back with the answer.
fn settled<M: Machine, R: Wait>(
    rt: &R,
    alloc: Global,
    book: Box<Book<M>>,
    passes: u32,
) -> Result<(Shown, Box<Book<M>>), Fail>
    requires open { (counts_of book.value).closed ≡ false }
    requires opened { IsOpened (book_of M.kit book.value) }
    requires room { HasSessionRoom book.value (2 * passes + 1) }
    ensures { IfOk result (λ r. (counts_of r.1.value).closed ≡ false) }
{
    let (turn, mut pass) = Turn::make(rt, alloc, book)?;
    let shown = settle(rt, alloc, &turn, &mut pass, &OpenGate, passes)?;
    let book = turn.finish(rt, pass);
    Ok((shown, book))
}

/// What a settle answers, and behind it the last mark's state and the room that the session has left.
fn found<R: Wait>(
    rt: &R,
    alloc: Global,
    book: Box<Book<TallyMachine>>,
    passes: u32,
) -> Result<((Shown, u64, u32), Box<Book<TallyMachine>>), Fail>
    requires { (counts_of book.value).closed ≡ false }
    ensures { IfOk result (λ r. (counts_of r.1.value).closed ≡ false) }
{
    if book.version() == 0 || u64::from(book.session_room()) < 2 * u64::from(passes) + 1 {
        return Err("no settle")?;
    }
    let (shown, book) = settled(rt, alloc, book, passes)?;
    if book.version() == 0 {
        return Err("no version")?;
    }
    let last = *book.current();
    let room = book.session_room();
    Ok(((shown, last, room), book))
}

/// What two settles come to, one behind the other.
fn settled_twice<L: Ledger, R: Wait>(
    rt: &R,
    alloc: Global,
    blank: Blank,
    first: u32,
    second: u32,
) -> Result<((Shown, u64, u32), (Shown, u64, u32)), Fail>
    requires name { blank.name ≡ L.name }
    requires parts { blank.parts ≡ L.parts }
    requires some { 0 < blank.parts }
{
    let mut steps = Steps::<L>::start(blank);
    let boxed = reloaded(alloc, &mut steps)?;
    let (one, boxed) = found(rt, alloc, boxed, first)?;
    let (other, _) = found(rt, alloc, boxed, second)?;
    Ok((one, other))
}

/// The same, with a counter of its own.
fn settles<R: Wait>(
    rt: &R,
    alloc: Global,
    first: u32,
    second: u32,
) -> Result<((Shown, u64, u32), (Shown, u64, u32)), Fail> {
    settled_twice::<Brand, R>(rt, alloc, Blank::new(1), first, second)
}

/// A pass makes the marks 8, 12 and 16, two make them 8, 16 and 16, and three 8, 16 and 20.
#[test]
fn settles_link_by_link(rt: HostRuntime) -> Result<(), Fail> {
    let alloc = rt.alloc();
    assert_eq!(rt;
        settles(&rt, alloc, 1, 2)?,
        (
            (Shown::Estimate { settled_to: 2 }, 16, 94),
            (Shown::Settled, 20, 89)
        )
    );
    assert_eq!(rt;
        settles(&rt, alloc, 2, 1)?,
        (
            (Shown::Estimate { settled_to: 4 }, 16, 92),
            (Shown::Settled, 20, 89)
        )
    );
    assert_eq!(rt;
        settles(&rt, alloc, 0, 9)?,
        (
            (Shown::Estimate { settled_to: 0 }, 16, 96),
            (Shown::Settled, 20, 89)
        )
    );
    assert_eq!(rt;
        settles(&rt, alloc, 3, 4)?,
        ((Shown::Settled, 20, 90), (Shown::Settled, 20, 89))
    );
    Ok(())
}
