// Values that stand somewhere.

/// Where the value of an expression stands, and how wide it is.
#[derive(Clone, Copy, Debug, PartialEq, Eq)]
pub struct Operand {
    pub place: u32,
    pub width: u8,
}
