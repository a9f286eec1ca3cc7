// A number of a row.

/// A number: its size, and whether it lies below zero.
#[derive(Clone, Copy, Debug)]
pub struct Number {
    pub below: bool,
    pub size: u128,
}
