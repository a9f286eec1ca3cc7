// What declarations give parameters.
use crate::bit_range::BitRange;

/// What the declaration of a parameter says of its value: its range, and whether it has `signed`.
#[derive(Clone, Copy, Debug)]
pub struct ParameterType {
    pub range: Option<BitRange>,
    pub signed: bool,
}
