// Places within an item.
use crate::mention::Mention;
use ls_text::Place;

/// The places of an item: where it begins, the parts of its targets, and its reads of signals. The last two stand beside the parts and
/// the leaves of the sized item, so those of a case's default come last; `order` says where they stand in the text.
#[derive(Debug, Drop)]
pub struct ItemPlaces {
    pub at: Place,
    pub targets: Vec<Mention>,
    pub reads: Vec<Mention>,
}
