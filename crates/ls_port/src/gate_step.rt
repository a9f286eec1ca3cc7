// What comes behind a gate.

/// What is done with a ticket behind a gate.
#[derive(Clone, Copy, Debug, PartialEq, Eq)]
pub enum GateStep {
    Verify,
    Install,
}
