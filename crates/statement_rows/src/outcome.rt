// What became of an item.

/// What became of an item of a module.
#[derive(Clone, Copy, Debug, PartialEq, Eq)]
pub enum Outcome {
    Executed,
    /// The widths of what it is sized to don't agree with those of the signals.
    Illegal,
    /// Its steps may not be walked over, or leave a value that doesn't fit its signal.
    Unsound,
    /// Neither a block nor a continuous assignment.
    OtherItem,
}
