// Signals that get their numbers one by one.
use crate::block_signal::BlockSignal;
use crate::first_places::FirstPlaces;
use crate::named_signal::NamedSignal;

/// Signals by their numbers, and what finds them: the number of each name of the module itself, that of each place in the order of the
/// declarations, and for each block its signals.
#[derive(Drop)]
pub struct Numbering {
    pub signals: Vec<NamedSignal>,
    pub names: FirstPlaces,
    pub orders: FirstPlaces,
    pub blocks: Vec<Vec<BlockSignal>>,
}
