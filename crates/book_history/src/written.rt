// What a history keeps: its entries, the versions and operations, and the record.
use crate::entry::Entry;
use crate::load::Load;
use crate::rooms::Rooms;
use machine::row_run::RowRun;

/// `cycle` is the number of cycles run; each has a row in `runs`.
#[derive(Drop)]
pub struct Written<D, R, O> {
    pub(crate) interval: u64,
    pub(crate) lookback: u64,
    pub(crate) rooms: Rooms,
    pub(crate) cycle: u64,
    pub(crate) entries: Vec<Entry>,
    pub(crate) loads: Vec<Load<D, O>>,
    pub(crate) runs: Vec<RowRun<R>>,
}
