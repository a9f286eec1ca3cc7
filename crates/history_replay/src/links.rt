// The links between marks: which one a claim takes, which one a ticket has, and how far the leading joined ones go.
use crate::drawn::Drawn;
use crate::mark::Mark;
use crate::states::same;
use book_history::link::Link;
use book_history::who::Who;

/// The mark behind the first link that this one takes: a worker an open one, the session one that isn't joined. None is 0.
pub fn wanted(marks: &[Mark], by: Who) -> usize {
    for at in 1..marks.len() {
        let link = marks[at].link;
        if link == Link::Open || (by == Who::Session && link != Link::Joined) {
            return at;
        }
    }
    0
}

/// The mark behind the link with the two cycles and the start of a ticket. None is 0.
pub fn place(marks: &[Mark], drawn: &Drawn) -> usize {
    for at in 1..marks.len() {
        let begin = &marks[at - 1];
        let end = &marks[at];
        if begin.cycle == drawn.a && end.cycle == drawn.b && same(&begin.own, &drawn.start) {
            return at;
        }
    }
    0
}

/// The link to this mark opens.
pub fn reopen(marks: &mut [Mark], at: usize) {
    if at > 0 && at < marks.len() {
        marks[at].link = Link::Open;
        marks[at].is_checked = false;
    }
}

/// Each link that is out with this ticket opens.
pub fn free(marks: &mut [Mark], ticket: u64) {
    for at in 1..marks.len() {
        if at < marks.len() && marks[at].link == Link::Out(ticket) {
            reopen(marks, at);
        }
    }
}

/// The cycle at the end of the leading joined links, where not all are joined.
pub fn settled_to(marks: &[Mark]) -> Option<u64> {
    for at in 1..marks.len() {
        if marks[at].link != Link::Joined {
            return Some(marks[at - 1].cycle);
        }
    }
    None
}
