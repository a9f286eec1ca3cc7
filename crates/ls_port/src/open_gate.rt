// The gate at which nobody waits.
use crate::{Gate, GateStep};

/// The gate at which nobody waits.
#[derive(Clone, Copy, Debug, PartialEq, Eq)]
pub struct OpenGate;

impl Gate for OpenGate {
    /// Returns at once.
    fn before(&self, _ticket: u64, _step: GateStep) {}
}
