// The links and marks that a run makes, and how a book takes them in.
ghost use Rattle.std.specs.Prelude.{◌≡◌, ◌++◌, ◌+◌, ◌≤◌, length, vec_capacity, OnOk};
ghost use Rattle.checkpoint_book.specs.Growth.{grown_to, HasPlaces};
ghost use Rattle.checkpoint_book.specs.Idle.{left_of};

use crate::idle::{left_of, left_of_both};
use crate::opened::Opened;
use book_history::segment::Segment;
use ls_text::NoMemory;

/// `More`: they come behind those that are there. `All`: marks were thinned on the way, and these are in place of them.
#[derive(Drop)]
pub enum Growth<S> {
    More(Vec<Segment<S>>),
    All(Vec<Segment<S>>),
}

/// Takes room for the marks, so that the book can then take them in without memory. What it stands for stays.
pub fn make_room<D, S>(o: &mut Opened<D, S>, growth: &Growth<S>) -> Result<(), NoMemory>
    ensures version { o.new.version ≡ o.old.version }
    ensures first { o.new.first ≡ o.old.first }
    ensures items { o.new.segs.items ≡ o.old.segs.items }
    ensures left { o.new.left ≡ o.old.left }
    ensures places { OnOk result (HasPlaces growth.now o.new.segs) }
{
    match growth {
        Growth::More(more) => {
            o.segs.reserve(more.len())?;
            Ok(())
        }
        Growth::All(_) => Ok(()),
    }
}

/// All of these links and marks behind the others.
fn append<S: Drop>(segs: &mut Vec<Segment<S>>, more: Vec<Segment<S>>)
    requires places { length segs.old.items + length more.items ≤ vec_capacity segs.old }
    ensures items { segs.new.items ≡ segs.old.items ++ more.items }
{
    for seg in more {
        segs.push_reserved(seg);
    }
}

/// Takes the marks in. It takes no memory.
pub fn grow<D, S: Drop>(o: &mut Opened<D, S>, growth: Growth<S>)
    requires places { HasPlaces growth o.old.segs }
    ensures version { o.new.version ≡ o.old.version }
    ensures first { o.new.first ≡ o.old.first }
    ensures items { o.new.segs.items ≡ grown_to growth o.old.segs.items }
    ensures left { o.old.left ≡ left_of o.old.segs.items → o.new.left ≡ left_of o.new.segs.items }
{
    match growth {
        Growth::More(more) => {
            let behind = left_of(&more);
            append(&mut o.segs, more);
            o.left = left_of_both(o.left, behind);
        }
        Growth::All(segs) => {
            o.left = left_of(&segs);
            o.segs = segs;
        }
    }
}
