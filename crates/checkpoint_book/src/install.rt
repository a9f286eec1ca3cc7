// A verified ticket comes back.
ghost use Rattle.std.specs.Prelude.{◌≡◌, ℕ, [], List, if◌then◌else◌};
ghost use Rattle.book_history.specs.Book.{is_current, joined, result_of, with_segs};
ghost use Rattle.checkpoint_book.specs.Opened.{core_of};
ghost use Rattle.checkpoint_book.specs.Answers.{install_answer, link_or_start, has_cycles};
ghost use Rattle.checkpoint_book.specs.Idle.{left_of};

use crate::find::{find_cycles, find_link, join_at};
use crate::idle::left_of;
use crate::installed::Installed;
use crate::opened::Opened;
use crate::ticket::Ticket;
use crate::verified::Verified;
use crate::why::Why;
use book_history::segment::Segment;
use machine::Machine;

/// Why a ticket of the same version is not current.
fn why_of<S, M: Machine>(segs: &[Segment<S>], ticket: &Ticket<M>) -> Why
    ensures { result ≡ link_or_start (has_cycles ticket.now.1.a ticket.now.1.b 0 segs.now) }
{
    if find_cycles(segs, ticket.a(), ticket.b()) {
        Why::Start
    } else {
        Why::Link
    }
}

/// Installs a verified ticket: its link is joined, or nothing changes.
pub fn install_in<M: Machine>(o: &mut Opened<M, M::State>, v: Verified<M>) -> Installed
    ensures answer { result ≡ install_answer M.kit (core_of {R = M.Row} o.old [] [] []) v.1 }
    ensures book { core_of {R = M.Row} o.new [] [] [] ≡ (if is_current M.kit (core_of {R = M.Row} o.old [] [] []) v.1
        then with_segs (core_of {R = M.Row} o.old [] [] []) (joined M.kit o.old.version.value.machine.value v.1 (result_of M.kit v.1) 0 o.old.first o.old.segs.items)
        else core_of {R = M.Row} o.old [] [] []) }
    ensures left { o.old.left ≡ left_of o.old.segs.items → o.new.left ≡ left_of o.new.segs.items }
{
    let Verified { ticket, outcome } = v;
    let ticket_version = ticket.version().number;
    let book_version = o.version.number;
    if ticket_version != book_version {
        return Installed::Stale {
            ticket_version,
            book_version,
            why: Why::Version,
        };
    }
    if let Some(i) = find_link(&*o.version.machine, &o.first, &o.segs, &ticket) {
        join_at(&*o.version.machine, &mut o.segs, i, outcome);
        o.left = left_of(&o.segs);
        return Installed::Joined;
    }
    Installed::Stale {
        ticket_version,
        book_version,
        why: why_of(&o.segs, &ticket),
    }
}
