// A book that a reload left with two links to verify is settled in several ways, all worked by hand.
ghost use Rattle.std.specs.Prelude.{◌≡◌, ◌<◌, false, OnOk};
ghost use Rattle.checkpoint_book.specs.Views.{counts_of};

use crate::tally_book::reloaded;
use checkpoint_book::book::Book;
use checkpoint_book::shown::Shown;
use machine::steps::Steps;
use machine::tally::TallyMachine;
use segment_verify::settle;
use std::alloc::Global;
use std::marker::Brand;
use std::sync::ledger::{Blank, Ledger};
use std::test::Fail;

/// What a settle answers, and behind it the last mark's state and the room that the session has left.
#[tactic(auto, using(segment_verify::proofs::Settling::settled_open))]
fn settled<L: Ledger>(
    book: &mut Book<TallyMachine>,
    alloc: Global,
    passes: u32,
    steps: &mut Steps<L>,
) -> Result<(Shown, u64, u32), Fail>
    requires { (counts_of book.old).closed ≡ false }
    ensures { OnOk result ((counts_of book.new).closed ≡ false) }
{
    if book.version() == 0 || u64::from(book.session_room()) < 2 * u64::from(passes) + 1 {
        return Err("no settle")?;
    }
    let answer = settle(alloc, book, passes, steps)?;
    if book.version() == 0 {
        return Err("no version")?;
    }
    let last = *book.current();
    Ok((answer, last, book.session_room()))
}

/// What two settles come to, one behind the other.
fn settled_twice<L: Ledger>(
    alloc: Global,
    blank: Blank,
    first: u32,
    second: u32,
) -> Result<((Shown, u64, u32), (Shown, u64, u32)), Fail>
    requires name { blank.name ≡ L.name }
    requires parts { blank.parts ≡ L.parts }
    requires some { 0 < blank.parts }
{
    let mut steps = Steps::<L>::start(blank);
    let mut boxed = reloaded(alloc, &mut steps)?;
    let book: &mut Book<TallyMachine> = &mut boxed;
    let one = settled(book, alloc, first, &mut steps)?;
    let other = settled(book, alloc, second, &mut steps)?;
    Ok((one, other))
}

/// The same, with a counter of its own.
fn settles(
    alloc: Global,
    first: u32,
    second: u32,
) -> Result<((Shown, u64, u32), (Shown, u64, u32)), Fail> {
    settled_twice::<Brand>(alloc, Blank::new(1), first, second)
}

/// A pass makes the marks 8, 12 and 16, two make them 8, 16 and 16, and three 8, 16 and 20.
#[test]
fn settles_link_by_link(rt: HostRuntime) -> Result<(), Fail> {
    let alloc = rt.alloc();
    assert_eq!(rt;
        settles(alloc, 1, 2)?,
        (
            (Shown::Estimate { settled_to: 2 }, 16, 94),
            (Shown::Settled, 20, 89)
        )
    );
    assert_eq!(rt;
        settles(alloc, 2, 1)?,
        (
            (Shown::Estimate { settled_to: 4 }, 16, 92),
            (Shown::Settled, 20, 89)
        )
    );
    assert_eq!(rt;
        settles(alloc, 0, 9)?,
        (
            (Shown::Estimate { settled_to: 0 }, 16, 96),
            (Shown::Settled, 20, 89)
        )
    );
    assert_eq!(rt;
        settles(alloc, 3, 4)?,
        ((Shown::Settled, 20, 90), (Shown::Settled, 20, 89))
    );
    Ok(())
}
