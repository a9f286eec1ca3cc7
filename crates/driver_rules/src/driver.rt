// Runs of bits with what drives or writes them.
use crate::driver_id::DriverId;
use typed_ir::SignalId;

/// Bits of a signal from `low` to `high`, both 0 to 127 and counted from its lowest bit, and what drives or writes them.
#[derive(Clone, Copy, Debug, PartialEq, Eq)]
pub struct Driver {
    pub signal: SignalId,
    pub low: u8,
    pub high: u8,
    pub by: DriverId,
}
