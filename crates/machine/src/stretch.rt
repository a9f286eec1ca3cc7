// A row together with the end of its stretch.

/// The row of a cycle, and the cycle up to which each cycle from there on has that row.
#[derive(Drop)]
pub struct Stretch<'a, R> {
    pub row: &'a R,
    pub end: u64,
}
