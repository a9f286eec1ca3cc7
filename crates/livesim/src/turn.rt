// A turn of a run.
use crate::ending::Ending;
use live_session::Reply;

/// What comes of one command: its reply, or the end.
#[derive(Debug, Drop)]
pub enum Turn {
    Answered(Reply),
    Over(Ending),
}
