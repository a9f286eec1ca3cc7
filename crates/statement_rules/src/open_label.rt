// Labels of a case whose length and sign aren't known yet.
use bits::Bits;
use width_rules::Measured;

/// What an item of a case is compared with, while the case's length and sign aren't known.
#[derive(Drop)]
pub enum OpenLabel {
    /// A literal, and the bits of its digits that match any bit.
    DontCare(Bits, u128),
    Compared(Measured),
}
