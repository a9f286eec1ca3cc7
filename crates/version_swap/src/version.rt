// The design of a version, before its texts are put beside it.
use cycle_eval::Design;
use module_registry::{Ensured, Key};

/// A design, the distinct keys of its instances, and how many units were built for these.
#[derive(Drop)]
pub struct Version {
    pub design: Design,
    pub keys: Vec<Key>,
    pub counts: Ensured,
}
