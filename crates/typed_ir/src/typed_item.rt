// Sized items with their places.
use crate::item_body::ItemBody;
use crate::item_places::ItemPlaces;

/// A sized item of a module and its places. Each pair of an `assign` is one, and each connection of an instance.
#[derive(Drop)]
pub struct TypedItem {
    pub body: ItemBody,
    pub places: ItemPlaces,
}
