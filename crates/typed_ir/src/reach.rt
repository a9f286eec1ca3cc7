// Selects at run time that are written.
use crate::signal_id::SignalId;

/// A select at run time left of an assignment, but for its index.
#[derive(Clone, Copy, Debug, PartialEq, Eq)]
pub struct Reach {
    /// Which bits of the value go there: those from this one on.
    pub shift: u8,
    pub signal: SignalId,
    /// The variable's width.
    pub total: u8,
    /// The width of the select.
    pub width: u8,
    /// What is taken from the index.
    pub below: u32,
    /// Whether the index is read as signed.
    pub signed: bool,
}
