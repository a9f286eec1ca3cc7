// A settle of a book on one thread: passes, each of which joins the first link that isn't joined, and then a show. What its entries are stands
// in `specs/` (`Passes`), and what they make of the history in `Settles`.

ghost use Rattle.std.specs.Prelude.{◌≡◌, ◌+◌, ◌*◌, ◌≤◌, ◌<◌, ◌++◌, ◌∷◌, [], None, true, false, min, IfOk, OnErr};
ghost use Rattle.segment_verify.specs.Rises.{IsPass, HasPassed, HasGivenUp};
ghost use Rattle.segment_verify.specs.Settles.{HasSettled, HasTried};
ghost use Rattle.checkpoint_book.specs.Answers.{shown_to};
ghost use Rattle.checkpoint_book.specs.Views.{book_of, counts_of, links_in, shown_in, HasSessionRoom, IsOpened};

use crate::verification::Verification;
use crate::verify;
use book_history::laws::legal_histories;
use book_history::who::Who;
use checkpoint_book::book::Book;
use checkpoint_book::shown::Shown;
use ls_text::NoMemory;
use machine::Machine;
use machine::steps::Steps;
use std::alloc::Global;
use std::sync::ledger::Ledger;

/// Claims the first link that isn't joined, verifies and installs it: whether there was one. Where memory runs out the
/// ticket is given up.
#[tactic(auto, using(crate::proofs::Passing::gave_none, crate::proofs::Passing::gave_one))]
fn pass<M: Machine, L: Ledger>(
    alloc: Global,
    book: &mut Book<M>,
    steps: &mut Steps<L>,
) -> Result<bool, NoMemory>
    requires open { (counts_of book.old).closed ≡ false }
    requires room { HasSessionRoom book.old 2 }
    ensures settings { book.new.settings ≡ book.old.settings }
    ensures ok { IfOk result (λ more. IsPass M.kit book.old book.new more) }
    ensures err { OnErr result (HasGivenUp book.old book.new) }
    ensures rises { steps.old ≤ steps.new }
{
    legal_histories::<M>();
    let Some(ticket) = book.claim_first(alloc)? else {
        return Ok(false);
    };
    match verify(alloc, ticket, steps) {
        Verification::Done(verified) => {
            book.install(Who::Session, verified);
            book.legal();
            Ok(true)
        }
        Verification::NoMemory(ticket) => {
            book.release(Who::Session, ticket);
            Err(NoMemory)
        }
    }
}

/// At most so many passes, and fewer only where all links are joined then.
#[tactic(auto, using(crate::proofs::Passing::passed_none, crate::proofs::Passing::passed_more, crate::proofs::Passing::passed_stop, crate::proofs::Passing::shown_still))]
fn make_passes<M: Machine, L: Ledger>(
    alloc: Global,
    book: &mut Book<M>,
    most: u32,
    steps: &mut Steps<L>,
) -> Result<u32, NoMemory>
    requires open { (counts_of book.old).closed ≡ false }
    requires room { HasSessionRoom book.old (2 * most) }
    ensures settings { book.new.settings ≡ book.old.settings }
    ensures passed { IfOk result (λ n. HasPassed M.kit book.old book.new n) }
    ensures few { IfOk result (λ n. n ≤ most) }
    ensures stops { IfOk result (λ n. n < most → shown_in (book_of M.kit book.new) ≡ None) }
    ensures err { OnErr result (HasTried book.old book.new most) }
    ensures rises { steps.old ≤ steps.new }
{
    let mut count = 0;
    'passes: while count < most {
        match pass(alloc, book, steps) {
            Ok(true) => count += 1,
            Ok(false) => return Ok(count),
            Err(NoMemory) => return Err(NoMemory),
        }
    }
    Ok(count)
}

/// Settles a book by at most so many passes, and then shows it. A pass claims the first link that isn't joined, runs its
/// ticket's machine over its rows and installs the result, so at least one link more leads behind it; where no such link
/// is left, there are fewer. The answer is that of the show: with a pass for each link, it is settled. The counter never falls.
///
/// Where memory runs out, the passes that were made stay, the ticket of the last one is given up, and there is no show.
pub fn settle<M: Machine, L: Ledger>(
    alloc: Global,
    book: &mut Book<M>,
    passes: u32,
    steps: &mut Steps<L>,
) -> Result<Shown, NoMemory>
    requires opened { IsOpened (book_of M.kit book.old) }
    requires open { (counts_of book.old).closed ≡ false }
    requires room { HasSessionRoom book.old (2 * min passes (links_in (book_of M.kit book.old)) + 1) }
    ensures settings { book.new.settings ≡ book.old.settings }
    ensures ok { IfOk result (λ s. HasSettled M.kit book.old book.new passes (shown_to s)) }
    ensures err { OnErr result (HasTried book.old book.new (min passes (links_in (book_of M.kit book.old)))) }
    ensures rises { steps.old ≤ steps.new }
{
    let most = passes.min(book.links());
    make_passes(alloc, book, most, steps)?;
    book.legal();
    Ok(book.show())
}
