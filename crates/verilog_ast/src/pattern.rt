// Literals with don't-care digits as a text writes them.

/// A literal with don't-care digits: its size in bits (1 to 128), its value with 0 at those digits, and a mask that has
/// a 1 at each bit of them.
#[derive(Clone, Copy, Debug, PartialEq, Eq)]
pub struct Pattern {
    pub size: u8,
    pub value: u128,
    pub mask: u128,
}
