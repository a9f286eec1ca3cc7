// What a history holds for an open or a reload, beside its entry.
use crate::version::Version;
use std::alloc::Global;
use std::sync::Arc;

/// The version that came, and for a reload its operations, shared so that a history can be copied.
#[derive(Drop)]
pub enum Load<D, O> {
    Open(Arc<Version<D>, Global>),
    Reload(Arc<Version<D>, Global>, Arc<O, Global>),
}
