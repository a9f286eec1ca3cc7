// A ticket is given up.
ghost use Rattle.std.specs.Prelude.{◌≡◌, ℕ};
ghost use Rattle.book_history.specs.Book.{free_link, freed};
ghost use Rattle.checkpoint_book.specs.Idle.{left_of};

use crate::idle::left_of;
use crate::opened::Opened;
use book_history::link::Link;
use book_history::segment::Segment;

/// The link is open where it is out with this ticket.
fn freed_link(link: Link, ticket: u64) -> Link
    ensures { result ≡ free_link ticket link }
{
    match link {
        Link::Open => Link::Open,
        Link::Out(number) => {
            if number == ticket {
                Link::Open
            } else {
                Link::Out(number)
            }
        }
        Link::Joined => Link::Joined,
    }
}

/// Opens the links that are out with this ticket.
fn free<S>(segs: &mut Vec<Segment<S>>, ticket: u64)
    ensures items { segs.new.items ≡ freed ticket segs.old.items }
{
    for i in 0..segs.len() {
        let seg = &mut segs[i];
        seg.link = freed_link(seg.link, ticket);
    }
}

/// Gives a ticket up.
pub fn release_in<D, S>(o: &mut Opened<D, S>, ticket: u64)
    ensures version { o.new.version ≡ o.old.version }
    ensures first { o.new.first ≡ o.old.first }
    ensures items { o.new.segs.items ≡ freed ticket o.old.segs.items }
    ensures left { o.new.left ≡ left_of o.new.segs.items }
{
    free(&mut o.segs, ticket);
    o.left = left_of(&o.segs);
}
