// A ticket is drawn for a link.
ghost use Rattle.std.specs.Prelude.{◌≡◌, ℕ, ◌<◌, ◌≤◌, ◌+◌, length, List, [], Some, None, IfOk, IfSome, IfNone, OnErr};
ghost use Rattle.book_history.specs.declared.link.Link.TheVariants.{Out};
ghost use Rattle.book_history.specs.Book.{takes, first_link, mark_out};
ghost use Rattle.book_history.specs.Law.{record_of};
ghost use Rattle.checkpoint_book.specs.Opened.{core_of};
ghost use Rattle.checkpoint_book.specs.Idle.{left_of};
ghost use Rattle.checkpoint_book.specs.Draw.{IsPlace, IsDrawable, IsDrawnAs};

use crate::idle::{is_idle, left_of};
use crate::opened::Opened;
use crate::ticket::Ticket;
use book_history::history_writer::HistoryWriter;
use book_history::link::Link;
use book_history::segment::Segment;
use book_history::who::Who;
use ls_text::NoMemory;
use machine::Machine;
use std::alloc::Global;
use std::sync::Arc;

/// Whether a claim takes the link: a worker's an open one, the session's any that isn't joined.
fn is_taken(link: Link, by: Who) -> bool
    ensures { result ≡ takes by link }
{
    match by {
        Who::Session => match link {
            Link::Open => true,
            Link::Out(_) => true,
            Link::Joined => false,
        },
        Who::Worker(_) => match link {
            Link::Open => true,
            Link::Out(_) => false,
            Link::Joined => false,
        },
    }
}

/// The first link that a claim takes, with its first cycle and state.
pub fn find_first<'a, S>(
    first: &'a S,
    segs: &'a [Segment<S>],
    by: Who,
) -> Option<(usize, u64, &'a S)>
    ensures none { IfNone result (first_link (takes by) 0 first.now segs.now ≡ None) }
    ensures some { IfSome result (λ f. IsPlace (takes by) first.now segs.now f.0 f.1 f.2.now) }
{
    let mut a = 0;
    let mut start = first;
    for i in 0..segs.len() {
        let seg = &segs[i];
        if is_taken(seg.link, by) {
            return Some((i, a, start));
        }
        a = seg.to;
        start = &seg.state;
    }
    None
}

/// Draws a ticket for the first link that a claim takes.
pub fn draw<M: Machine>(
    alloc: Global,
    o: &mut Opened<M, M::State>,
    history: &HistoryWriter<M>,
    number: u64,
    by: Who,
) -> Result<Option<Ticket<M>>, NoMemory>
    requires left { o.old.left ≡ left_of o.old.segs.items }
    requires drawable { (f : ℕ × ℕ × M.State) → first_link (takes by) 0 o.old.first o.old.segs.items ≡ Some f
        → IsDrawable (M.fits o.old.version.value.machine.value) (length (record_of history.now.events)) f }
    ensures none { IfOk result (λ r. IfNone r ((o.new ≡ o.old) × (first_link (takes by) 0 o.old.first o.old.segs.items ≡ None))) }
    ensures some { IfOk result (λ r. IfSome r (λ t. IsDrawnAs M.kit by number (core_of o.old (record_of history.now.events) [] []) (core_of o.new (record_of history.now.events) [] []) t)) }
    ensures left { o.new.left ≡ left_of o.new.segs.items }
    ensures err { OnErr result ((o.new ≡ o.old) × ((f : ℕ × ℕ × M.State) × (first_link (takes by) 0 o.old.first o.old.segs.items ≡ Some f))) }
{
    if is_idle(o, by) {
        return Ok(None);
    }
    let Some((i, a, start)) = find_first(&o.first, &o.segs, by) else {
        unreachable!()
    };
    let b = o.segs[i].to;
    let start = (*o.version.machine).share(alloc, start)?;
    let rows = history.rows(alloc, a, b)?;
    let version = Arc::try_clone(&o.version)?;
    o.segs[i].link = Link::Out(number);
    o.left = left_of(&o.segs);
    Ok(Some(Ticket {
        number,
        by,
        version,
        a,
        b,
        rows,
        start,
    }))
}
