// The signals that are declared so far.
use crate::first_places::FirstPlaces;
use crate::named_signal::NamedSignal;

/// The signals that are declared so far, in the order of their declarations, and the places of the ports of the module itself by their
/// names.
#[derive(Drop)]
pub struct Table {
    pub signals: Vec<NamedSignal>,
    pub ports: FirstPlaces,
}
