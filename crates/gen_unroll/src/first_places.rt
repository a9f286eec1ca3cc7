// The first place of each key.
use indexmap::IndexMap;

/// The first place that was noted for each key, found by its hash.
#[derive(Drop)]
pub struct FirstPlaces {
    pub places: IndexMap<u64, u32>,
}
