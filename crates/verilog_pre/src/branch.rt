// How far a conditional has come.

/// How far a conditional has come (IEEE 1364-2005, clause 19.4).
#[derive(Clone, Copy, Debug, PartialEq, Eq)]
pub enum Branch {
    /// The branch that stands here is read.
    Taken,
    /// No branch was read so far.
    Waiting,
    /// A branch was read, or none is, since the text around is skipped.
    Past,
}
