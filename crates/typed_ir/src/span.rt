// Runs of bits of a signal.
use crate::signal_id::SignalId;

/// So many bits of a signal, from bit `low` on, counted from the signal's lowest bit.
#[derive(Clone, Copy, Debug, PartialEq, Eq)]
pub struct Span {
    pub signal: SignalId,
    pub low: u8,
    pub width: u8,
}
