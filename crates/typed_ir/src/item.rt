// The items of a case.
use crate::typed::Typed;

/// An expression of a case item.
#[derive(Drop)]
pub struct Item {
    /// The bits of don't-care digits, which match any bit.
    pub ignored: u128,
    pub item: Typed,
}
