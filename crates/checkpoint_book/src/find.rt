// Where a ticket's link is.
ghost use Rattle.std.specs.Prelude.{◌≡◌, ℕ, ◌<◌, length, true, false, IfSome, IfNone};
ghost use Rattle.book_history.specs.Book.{matches, has_link, joined};
ghost use Rattle.checkpoint_book.specs.Place.{joined_at};
ghost use Rattle.checkpoint_book.specs.Answers.{has_cycles};

use crate::ticket::Ticket;
use book_history::link::Link;
use book_history::segment::Segment;
use machine::Machine;

/// Whether the link from this mark to the segment's is the ticket's.
fn is_place<M: Machine>(
    machine: &M,
    a: u64,
    start: &M::State,
    seg: &Segment<M::State>,
    ticket: &Ticket<M>,
) -> bool
    ensures { result ≡ matches M.kit machine.now ticket.now.1 a start.now seg.now }
{
    a == ticket.a() && seg.to == ticket.b() && machine.same(start, ticket.start())
}

/// The place of the ticket's link.
pub fn find_link<M: Machine>(
    machine: &M,
    first: &M::State,
    segs: &[Segment<M::State>],
    ticket: &Ticket<M>,
) -> Option<usize>
    ensures none { IfNone result (has_link M.kit machine.now ticket.now.1 0 first.now segs.now ≡ false) }
    ensures within { IfSome result (λ i. i < length segs.now) }
    ensures some { IfSome result (λ i. has_link M.kit machine.now ticket.now.1 0 first.now segs.now ≡ true) }
    ensures place { IfSome result (λ i. (r : M.State) → joined M.kit machine.now ticket.now.1 r 0 first.now segs.now ≡ joined_at M.kit machine.now r i segs.now) }
{
    let mut a = 0;
    let mut start = first;
    for i in 0..segs.len() {
        let seg = &segs[i];
        if is_place(machine, a, start, seg, ticket) {
            return Some(i);
        }
        a = seg.to;
        start = &seg.state;
    }
    None
}

/// Whether a link has the ticket's two cycles.
pub fn find_cycles<S>(segs: &[Segment<S>], a: u64, b: u64) -> bool
    ensures { result ≡ has_cycles a b 0 segs.now }
{
    let mut from = 0;
    for seg in segs {
        if from == a && seg.to == b {
            return true;
        }
        from = seg.to;
    }
    false
}

/// Joins the link at a place, with its result.
pub fn join_at<M: Machine>(
    machine: &M,
    segs: &mut Vec<Segment<M::State>>,
    i: usize,
    outcome: M::State,
)
    requires { i < length segs.old.items }
    ensures { segs.new.items ≡ joined_at M.kit machine.now outcome i segs.old.items }
{
    let same = machine.same(&outcome, &segs[i].state);
    let seg = &mut segs[i];
    seg.link = Link::Joined;
    if same {
        return;
    }
    seg.state = outcome;
    if i + 1 < segs.len() {
        segs[i + 1].link = Link::Open;
    }
}
