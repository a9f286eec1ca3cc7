// How far a book is settled.
ghost use Rattle.std.specs.Prelude.{◌≡◌, ℕ, None};
ghost use Rattle.book_history.specs.Book.{settled_to, shown};
ghost use Rattle.checkpoint_book.specs.Idle.{left_of};

use crate::idle::{is_idle, joins};
use crate::opened::Opened;
use book_history::segment::Segment;
use book_history::who::Who;

/// The cycle at the end of the leading joined links.
fn settled_to<S>(segs: &[Segment<S>]) -> u64
    ensures { result ≡ settled_to 0 segs.now }
{
    let mut cycle = 0;
    for seg in segs {
        if !joins(seg.link) {
            return cycle;
        }
        cycle = seg.to;
    }
    cycle
}

/// What a show tells: the cycle up to which the book is settled, or None, by one look, where all links are joined.
pub fn shown<D, S>(o: &Opened<D, S>) -> Option<u64>
    requires { o.now.left ≡ left_of o.now.segs.items }
    ensures { result ≡ shown o.now.segs.items }
{
    if is_idle(o, Who::Session) {
        return None;
    }
    Some(settled_to(&o.segs))
}
