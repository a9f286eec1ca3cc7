// The based part of a number.
ghost use Rattle.std.specs.Prelude.{◌≤◌};

/// The based part of a number (IEEE 1364-2005, clause 3.5.1): whether it is signed, its radix, and its digits.
#[derive(Clone, Copy)]
pub struct Based<'a> {
    pub signed: bool,
    pub radix: u8,
    pub digits: &'a [u8],
    ghost some: { 1 ≤ radix },
}
