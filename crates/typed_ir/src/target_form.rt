// How a target is shown.

/// The form in which a target is shown where a node is named by it: a select at run time as the name alone, a bit-select as
/// `w[3]`, and every other select whose bits are known as `w[7:0]`, also one of a single bit.
#[derive(Clone, Copy, Debug, PartialEq, Eq)]
pub enum TargetForm {
    /// `w`
    Name,
    /// `w[3]`
    Bit,
    /// `w[7:0]`
    Range,
}
