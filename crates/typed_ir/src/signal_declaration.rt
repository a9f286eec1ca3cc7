// Declarations of signals.
use crate::signal_kind::SignalKind;

/// What a signal is declared as, and its number in the order of the declarations of its module, the header first.
#[derive(Clone, Copy, Debug, PartialEq, Eq)]
pub struct SignalDeclaration {
    pub kind: SignalKind,
    pub order: u32,
}
