// What a fault of an item shows.
use ls_text::{NameId, Place};

/// The place that a fault of an item shows, and the name that stands there; None where the item has no mention for it. `order` is that
/// of the mention, else 0.
#[derive(Clone, Copy, Debug, PartialEq, Eq)]
pub struct Shown {
    pub name: Option<NameId>,
    pub at: Place,
    pub order: u32,
}
