// Numbers as a text writes them.

/// A number: its size in bits (1 to 128, or 0 where none is written), whether it is signed, and its value, which is cut
/// to the size.
#[derive(Clone, Copy, Debug, PartialEq, Eq)]
pub struct Number {
    pub size: u8,
    pub signed: bool,
    pub value: u128,
}
