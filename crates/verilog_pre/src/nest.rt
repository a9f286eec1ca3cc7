// The nest of uses that are open, and the work that they leave.
use crate::item::Item;
use std::collections::VecDeque;

/// The numbers of the macros whose uses are open, the outermost first, and the work that is left, in order.
#[derive(Drop)]
pub struct Nest {
    pub open: Vec<usize>,
    pub work: VecDeque<Item>,
}
