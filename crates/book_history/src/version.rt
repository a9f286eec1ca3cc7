// A machine with its number.
use std::alloc::Global;
use std::sync::Arc;

/// The versions of a book are numbered from 1.
#[derive(Drop)]
pub struct Version<M> {
    pub number: u64,
    pub machine: Arc<M, Global>,
}
