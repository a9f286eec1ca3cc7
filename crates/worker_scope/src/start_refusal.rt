// Why fewer workers were started than were asked for.
use thiserror::Error;

/// What was missing for the next worker.
#[derive(Clone, Copy, Debug, PartialEq, Eq, Error)]
pub enum StartRefusal {
    #[error("out of memory")]
    NoMemory,
    #[error("no thread can be started")]
    NoThread,
}
