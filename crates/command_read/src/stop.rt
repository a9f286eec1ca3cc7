// Why a reader stopped.
use crate::ReadEnd;

/// Why a reader hands nothing out any more.
#[derive(Clone, Copy, Debug, PartialEq, Eq)]
pub enum Stop {
    End,
    Fault,
    TooMuch,
    NoMemory,
}
