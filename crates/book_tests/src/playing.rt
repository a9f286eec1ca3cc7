// A case is played step by step, with its tickets held in two places.
ghost use Rattle.std.specs.Prelude.{◌≡◌, ◌<◌, false, None, IfOk, IfSome};
ghost use Rattle.book_history.specs.Outs.{IsOutFor};
ghost use Rattle.checkpoint_book.specs.Views.{book_of, counts_of};
ghost use Rattle.book_tests.specs.Held.{tally_kit, AreHeld, IsHeld, Keeps};

use crate::book_answer::BookAnswer;
use crate::book_case::BookCase;
use crate::book_step::BookStep;
use crate::calls::{adds, begin, close, last, reload, run, run_changing, show};
use crate::held_ticket::HeldTicket;
use crate::held_tickets::HeldTickets;
use crate::place::Place;
use crate::ticket_calls::{drawn, give_up, hand_in, take_first, take_open};
use book_history::history::History;
use book_history::who::Who;
use checkpoint_book::book::Book;
use machine::steps::Steps;
use machine::tally::TallyMachine;
use std::alloc::Global;
use std::marker::Brand;
use std::process::Abort;
use std::sync::ledger::{Blank, Ledger};
use std::test::Fail;

/// The ticket in this place, and that in the other one.
fn parted(
    book: &Book<TallyMachine>,
    held: HeldTickets,
    place: Place,
) -> (Option<HeldTicket>, Option<HeldTicket>)
    requires first { IsHeld (λ h. h.ticket) (λ h. h.by) book.now held.first }
    requires second { IsHeld (λ h. h.ticket) (λ h. h.by) book.now held.second }
    ensures chosen { IsHeld (λ h. h.ticket) (λ h. h.by) book.now result.0 }
    ensures other { IsHeld (λ h. h.ticket) (λ h. h.by) book.now result.1 }
{
    let HeldTickets {
        first,
        second,
        closed: _,
    } = held;
    match place {
        Place::First => (first, second),
        Place::Second => (second, first),
    }
}

/// A ticket in this place, and another one in the other.
fn put(
    book: &Book<TallyMachine>,
    place: Place,
    chosen: Option<HeldTicket>,
    other: Option<HeldTicket>,
    closed: bool,
) -> HeldTickets
    requires chosen { IsHeld (λ h. h.ticket) (λ h. h.by) book.now chosen }
    requires other { IsHeld (λ h. h.ticket) (λ h. h.by) book.now other }
    ensures first { IsHeld (λ h. h.ticket) (λ h. h.by) book.now result.first }
    ensures second { IsHeld (λ h. h.ticket) (λ h. h.by) book.now result.second }
    ensures closed { result.closed ≡ closed }
{
    match place {
        Place::First => HeldTickets {
            first: chosen,
            second: other,
            closed,
        },
        Place::Second => HeldTickets {
            first: other,
            second: chosen,
            closed,
        },
    }
}

/// Whether there is a ticket of this number.
fn has_number(held: &Option<HeldTicket>, number: u64) -> bool
    ensures { result ≡ false → IfSome held.now (λ h. h.ticket.0 ≡ number → ⊥) }
{
    match held {
        Some(held) => held.ticket.number() == number,
        None => false,
    }
}

/// A claim by this asker.
#[tactic(auto, using(crate::proofs::Tries::keeps_same))]
fn take(
    book: &mut Book<TallyMachine>,
    alloc: Global,
    closed: bool,
    by: Who,
) -> Result<Result<HeldTicket, BookAnswer>, Fail>
    requires closed { (counts_of book.old).closed ≡ closed }
    ensures keeps { Keeps book.old book.new }
    ensures drawn { IfOk result (λ r. IfOk r (λ h. IsOutFor (book_of tally_kit book.new) h.ticket.0 h.ticket.1 h.by)) }
{
    match by {
        Who::Session => {
            if closed {
                return Err("closed")?;
            }
            take_first(book, alloc)
        }
        Who::Worker(worker) => take_open(book, alloc, worker),
    }
}

/// A claim, whose ticket takes this place.
fn take_step(
    book: &mut Book<TallyMachine>,
    alloc: Global,
    held: HeldTickets,
    by: Who,
    place: Place,
) -> Result<(HeldTickets, BookAnswer), Fail>
    requires held { AreHeld (λ h. h.ticket) (λ h. h.by) book.old held.first held.second held.closed }
    ensures { IfOk result (λ r. AreHeld (λ h. h.ticket) (λ h. h.by) book.new r.0.first r.0.second r.0.closed) }
{
    let closed = held.closed;
    match take(book, alloc, closed, by)? {
        Ok(ticket) => {
            let answer = drawn(&ticket.ticket);
            let (_, other) = parted(book, held, place);
            Ok((put(book, place, Some(ticket), other, closed), answer))
        }
        Err(answer) => Ok((held, answer)),
    }
}

/// The ticket in this place is verified and installed.
fn hand_in_step<L: Ledger>(
    book: &mut Book<TallyMachine>,
    alloc: Global,
    held: HeldTickets,
    place: Place,
    steps: &mut Steps<L>,
) -> Result<(HeldTickets, BookAnswer), Fail>
    requires held { AreHeld (λ h. h.ticket) (λ h. h.by) book.old held.first held.second held.closed }
    ensures { IfOk result (λ r. AreHeld (λ h. h.ticket) (λ h. h.by) book.new r.0.first r.0.second r.0.closed) }
{
    let closed = held.closed;
    let (chosen, other) = parted(book, held, place);
    let Some(ticket) = chosen else {
        return Err("no ticket")?;
    };
    if has_number(&other, ticket.ticket.number()) {
        return Err("one number twice")?;
    }
    let answer = hand_in(book, alloc, ticket, steps)?;
    Ok((
        put(book, place, None, other, closed),
        BookAnswer::HandedIn(answer),
    ))
}

/// The ticket in this place is given up.
fn give_up_step(
    book: &mut Book<TallyMachine>,
    held: HeldTickets,
    place: Place,
) -> Result<(HeldTickets, BookAnswer), Fail>
    requires held { AreHeld (λ h. h.ticket) (λ h. h.by) book.old held.first held.second held.closed }
    ensures { IfOk result (λ r. AreHeld (λ h. h.ticket) (λ h. h.by) book.new r.0.first r.0.second r.0.closed) }
{
    let closed = held.closed;
    let (chosen, other) = parted(book, held, place);
    let Some(ticket) = chosen else {
        return Err("no ticket")?;
    };
    if has_number(&other, ticket.ticket.number()) {
        return Err("one number twice")?;
    }
    give_up(book, ticket)?;
    Ok((put(book, place, None, other, closed), BookAnswer::Done))
}

/// The book is closed.
fn close_step(
    book: &mut Book<TallyMachine>,
    held: HeldTickets,
) -> Result<(HeldTickets, BookAnswer), Fail>
    requires held { AreHeld (λ h. h.ticket) (λ h. h.by) book.old held.first held.second held.closed }
    ensures { IfOk result (λ r. AreHeld (λ h. h.ticket) (λ h. h.by) book.new r.0.first r.0.second r.0.closed) }
{
    let HeldTickets {
        first,
        second,
        closed,
    } = held;
    if closed {
        return Err("closed")?;
    }
    close(book);
    let held = HeldTickets {
        first,
        second,
        closed: true,
    };
    Ok((held, BookAnswer::Done))
}

/// What a reader answers.
fn read(book: &Book<TallyMachine>, step: BookStep) -> Result<BookAnswer, Fail> {
    match step {
        BookStep::Cycle => Ok(BookAnswer::Is(book.cycle())),
        BookStep::Marks => Ok(BookAnswer::Is(u64::from(book.marks()))),
        BookStep::Links => Ok(BookAnswer::Is(u64::from(book.links()))),
        BookStep::Version => Ok(BookAnswer::Is(book.version())),
        BookStep::Room => Ok(BookAnswer::Is(u64::from(book.session_room()))),
        BookStep::Last => Ok(BookAnswer::Is(last(book)?)),
        _ => Err("no reader")?,
    }
}

/// A step that draws no ticket, uses none up and doesn't close the book.
#[tactic(auto, using(crate::proofs::Tries::keeps_same))]
fn call<L: Ledger>(
    book: &mut Book<TallyMachine>,
    alloc: Global,
    step: BookStep,
    steps: &mut Steps<L>,
) -> Result<BookAnswer, Fail>
    ensures { Keeps book.old book.new }
{
    match step {
        BookStep::Run(n) => {
            run(book, alloc, n, steps)?;
            Ok(BookAnswer::Done)
        }
        BookStep::RunChanging => {
            run_changing(book, alloc, steps)?;
            Ok(BookAnswer::Done)
        }
        BookStep::Reload(add) => Ok(BookAnswer::Chosen(reload(book, alloc, add, steps)?)),
        BookStep::Show => Ok(BookAnswer::Told(show(book)?)),
        step => read(book, step),
    }
}

/// One step: what is held after it, and what it answers.
fn take_a_step<L: Ledger>(
    book: &mut Book<TallyMachine>,
    alloc: Global,
    held: HeldTickets,
    step: BookStep,
    steps: &mut Steps<L>,
) -> Result<(HeldTickets, BookAnswer), Fail>
    requires held { AreHeld (λ h. h.ticket) (λ h. h.by) book.old held.first held.second held.closed }
    ensures { IfOk result (λ r. AreHeld (λ h. h.ticket) (λ h. h.by) book.new r.0.first r.0.second r.0.closed) }
{
    match step {
        BookStep::Take(by, place) => take_step(book, alloc, held, by, place),
        BookStep::HandIn(place) => hand_in_step(book, alloc, held, place, steps),
        BookStep::GiveUp(place) => give_up_step(book, held, place),
        BookStep::Close => close_step(book, held),
        step => {
            let answer = call(book, alloc, step, steps)?;
            Ok((held, answer))
        }
    }
}

/// All steps of a case, with a counter of its own, which nobody reads. Each answers as its row says.
fn play_counted<L: Ledger, R: Abort>(
    rt: &R,
    alloc: Global,
    case: BookCase,
    blank: Blank,
) -> Result<History<TallyMachine>, Fail>
    requires name { blank.name ≡ L.name }
    requires parts { blank.parts ≡ L.parts }
    requires some { 0 < blank.parts }
{
    let mut steps = Steps::<L>::start(blank);
    if case.interval == 0 {
        return Err("no interval")?;
    }
    let mut boxed = Book::<TallyMachine>::new(alloc, case.interval, case.lookback, case.rooms)?;
    let book: &mut Book<TallyMachine> = &mut boxed;
    begin(book, adds(alloc, 1, 3)?)?;
    let mut held = HeldTickets {
        first: None,
        second: None,
        closed: false,
    };
    let mut at = 0u64;
    for (step, wanted) in case.rows {
        at = at.saturating_add(1);
        let (next, answer) = take_a_step(book, alloc, held, *step, &mut steps)?;
        assert_eq!(rt; answer, *wanted, "{}: row {at}", case.name);
        held = next;
    }
    Ok(Book::into_history(boxed))
}

/// Plays a case: each step answers as its row says. The history is the answer.
pub fn play<R: Abort>(
    rt: &R,
    alloc: Global,
    case: BookCase,
) -> Result<History<TallyMachine>, Fail> {
    play_counted::<Brand, R>(rt, alloc, case, Blank::new(1))
}
