// A pause point that threads share.
use crate::GateStep;

/// A pause point that threads share, so that a test may order what they do.
pub trait Gate: Sync {
    /// Called right before the step on the ticket of this number, outside of the book's turn. It changes nothing of the caller.
    fn before(&self, ticket: u64, step: GateStep);
}
