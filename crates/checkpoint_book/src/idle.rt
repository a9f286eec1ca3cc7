// Whether a claim has a link to take, told by one look at what is left.
ghost use Rattle.std.specs.Prelude.{◌≡◌};
ghost use Rattle.book_history.specs.Book.{is_open, is_joined, all_joined, takes, first_link};
ghost use Rattle.checkpoint_book.specs.Idle.{any_open, left_of, left_of_both, takes_none};
ghost use Rattle.checkpoint_book.specs.Views.{is_none};

use crate::left::Left;
use crate::opened::Opened;
use book_history::link::Link;
use book_history::segment::Segment;
use book_history::who::Who;

fn opens(link: Link) -> bool
    ensures { result ≡ is_open link }
{
    match link {
        Link::Open => true,
        Link::Out(_) => false,
        Link::Joined => false,
    }
}

pub fn joins(link: Link) -> bool
    ensures { result ≡ is_joined link }
{
    match link {
        Link::Open => false,
        Link::Out(_) => false,
        Link::Joined => true,
    }
}

/// Whether some link is open.
fn has_open<S>(segs: &[Segment<S>]) -> bool
    ensures { result ≡ any_open segs.now }
{
    for seg in segs {
        if opens(seg.link) {
            return true;
        }
    }
    false
}

/// Whether all links are joined.
fn are_joined<S>(segs: &[Segment<S>]) -> bool
    ensures { result ≡ all_joined segs.now }
{
    for seg in segs {
        if !joins(seg.link) {
            return false;
        }
    }
    true
}

/// What is left of these links.
pub fn left_of<S>(segs: &[Segment<S>]) -> Left
    ensures { result ≡ left_of segs.now }
{
    if has_open(segs) {
        return Left::SomeOpen;
    }
    if are_joined(segs) {
        Left::AllJoined
    } else {
        Left::SomeOut
    }
}

/// What is left of the links of two lists together.
pub fn left_of_both(a: Left, b: Left) -> Left
    ensures { result ≡ left_of_both a b }
{
    match a {
        Left::SomeOpen => Left::SomeOpen,
        Left::SomeOut => match b {
            Left::SomeOpen => Left::SomeOpen,
            Left::SomeOut => Left::SomeOut,
            Left::AllJoined => Left::SomeOut,
        },
        Left::AllJoined => b,
    }
}

/// Whether a claim takes none of what is left.
fn takes_none(by: Who, left: Left) -> bool
    ensures { result ≡ takes_none by left }
{
    match by {
        Who::Session => match left {
            Left::SomeOpen => false,
            Left::SomeOut => false,
            Left::AllJoined => true,
        },
        Who::Worker(_) => match left {
            Left::SomeOpen => false,
            Left::SomeOut => true,
            Left::AllJoined => true,
        },
    }
}

/// Whether a claim finds nothing, by one look.
pub fn is_idle<D, S>(o: &Opened<D, S>, by: Who) -> bool
    requires { o.now.left ≡ left_of o.now.segs.items }
    ensures { result ≡ is_none (first_link (takes by) 0 o.now.first o.now.segs.items) }
{
    takes_none(by, o.left)
}
