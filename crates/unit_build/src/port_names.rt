// The ports of an instance by their names.
use indexmap::IndexMap;

/// The number of the first port of each name. A name is found by its hash.
#[derive(Drop)]
pub struct PortNames {
    pub(crate) first: IndexMap<u64, usize>,
}
