// Designs.
use indexmap::IndexSet;
use module_registry::{Ensured, Key};
use typed_ir::Linked;

/// A design: the keys of its instances, each once, in the order of their first instances; how many of their units were built for it; and
/// what the units are linked to.
#[derive(Drop)]
pub struct Design {
    pub keys: IndexSet<Key>,
    pub ensured: Ensured,
    pub linked: Linked,
}
