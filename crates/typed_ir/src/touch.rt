// Masks of bits of a signal.
use crate::signal_id::SignalId;

/// Some bits of a signal, as a mask from its lowest bit on.
#[derive(Clone, Copy, Debug, PartialEq, Eq)]
pub struct Touch {
    pub signal: SignalId,
    pub mask: u128,
}
