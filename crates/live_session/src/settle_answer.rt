// How a settle ends.

/// Whether all segments are settled behind a settle.
#[derive(Clone, Copy, Debug, PartialEq, Eq)]
pub enum SettleAnswer {
    /// All are: the registers of the last mark are those of a run from reset.
    Settled,
    /// One isn't: the first ones are, up to this cycle.
    Unsettled { settled_to: u64 },
}
