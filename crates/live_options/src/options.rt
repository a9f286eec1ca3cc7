// What the program's words ask for.

/// How many workers a run has, how it keeps its history, and whether its script is made.
#[derive(Clone, Copy, Debug, PartialEq, Eq)]
pub struct Options {
    /// How many workers are started, from 0 to 64.
    pub workers: u8,
    /// Cycles from one mark to the next, from 1 to 1,000,000,000.
    pub interval: u64,
    /// Cycles that are kept behind the current one, from 0 to 1,099,511,627,776.
    pub lookback: u64,
    /// Of how many stages the script is that is made and taken in place of the input, from 1 to 4,096; the input is taken where there is none.
    pub load: Option<u32>,
}
