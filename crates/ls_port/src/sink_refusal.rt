// Why a sink takes nothing.
use thiserror::Error;

/// Why a sink takes nothing.
#[derive(Clone, Copy, Debug, PartialEq, Eq, Error)]
pub enum SinkRefusal {
    #[error("the sink failed")]
    Failed,
    #[error("out of memory")]
    NoMemory,
}
