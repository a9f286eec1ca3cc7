// The literal that a Number or a Wild stands for.

/// The literal of a Number, whose mask is 0, or of a Wild (IEEE 1364-2005, clause 3.5.1); all zero for other kinds.
#[derive(Clone, Copy, Debug, PartialEq, Eq)]
pub struct Literal {
    /// The size in bits, from 1 to 128; 0 where the literal has none.
    pub size: u8,
    /// Whether its value is read as signed: a plain decimal, or a based part with `s`.
    pub signed: bool,
    /// The value, below 2 ^ size, or below 2 ^ 32 without a size. Wildcard digits count as 0.
    pub value: u128,
    /// The bits that wildcard digits cover: each matches any bit.
    pub mask: u128,
}
