// What the grammar machine refuses.
use crate::stop::Stop;
use thiserror::Error;

/// What is wrong, and how many tokens are left from the one where it is wrong.
#[derive(Clone, Copy, Debug, PartialEq, Eq, Error)]
pub enum ParseFault {
    /// No rule goes on with the token.
    #[error("no rule goes on with the token")]
    Stuck(Stop, usize),
    /// Too much is open at the token.
    #[error("too much is open at the token")]
    Heavy(usize),
}
