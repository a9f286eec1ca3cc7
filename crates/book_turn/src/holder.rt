// A pass of a turn.
use crate::sight::Sight;
use book_history::historied::Historied;
use crossbeam_queue::Pass;

/// What one holder knows of a turn. It has no bytes.
#[derive(Drop)]
pub struct Holder<B: Historied, const SESSION: bool> {
    pub(crate) seat: Pass<Box<B>, Sight<B>>,
}

pub type SessionPass<B> = Holder<B, true>;

pub type WorkerPass<B> = Holder<B, false>;
