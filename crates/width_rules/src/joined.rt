// What the parts of a concatenation are together.
use crate::joined_bits::JoinedBits;

/// The parts of a concatenation so far, from the left.
#[derive(Drop)]
pub enum Joined {
    /// No part.
    Nothing,
    Bits(JoinedBits),
    /// Of more than 128 bits together.
    TooWide,
}
