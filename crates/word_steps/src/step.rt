// One step: what it does, and with which words.
use crate::op::Op;

/// One step of a walk. Its places are those of words; a step that passes over others takes their number from `c`.
#[derive(Clone, Copy, Debug, PartialEq, Eq)]
pub struct Step {
    pub op: Op,
    /// The width of the result or of the operands, in bits: 1 to 128.
    pub width: u8,
    /// A bit's place, or a second width, as the operator takes it.
    pub low: u8,
    /// Whether all 128 bits of the words count; else the lower 64 do.
    pub wide: bool,
    /// Where the result goes.
    pub to: u32,
    pub a: u32,
    pub b: u32,
    pub c: u32,
}
