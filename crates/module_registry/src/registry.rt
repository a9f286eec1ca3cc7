// What was built, by its keys.
use crate::key::Key;
use indexmap::IndexMap;
use std::alloc::Global;
use std::sync::Arc;
use typed_ir::Unit;

/// Units by the keys of their jobs, in the order in which they came in; no two of one key. A unit is found by the hash of its key's digest.
#[derive(Drop)]
pub struct Registry {
    pub(crate) alloc: Global,
    pub(crate) units: IndexMap<Key, Arc<Unit, Global>>,
}
