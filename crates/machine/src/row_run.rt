// One row for a stretch of cycles.
use std::alloc::Global;
use std::sync::Arc;

/// One row, for the cycles from `start` to `end` - 1.
#[derive(Drop)]
pub struct RowRun<R> {
    pub start: u64,
    pub end: u64,
    pub row: Arc<R, Global>,
}
