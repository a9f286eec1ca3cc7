// Shifts (IEEE Std 1364-2005, 5.1.12).

/// A shift by an unsigned amount of any width.
#[derive(Clone, Copy, Debug, PartialEq, Eq)]
pub enum ShiftOperator {
    Left,
    Right,
    /// `>>>` of a signed value.
    Arithmetic,
}
