// How the reading of a script ended.

/// How the reading of a script ended.
#[derive(Clone, Copy, Debug, PartialEq, Eq)]
pub enum Ending {
    /// The input ended, or the script did with `quit`.
    Whole,
    /// A read failed.
    Failed,
    /// There is one byte above the limit.
    TooMuch,
    /// Memory ran out.
    NoMemory,
}
