// The names in reach of a unit at a step.
use crate::reach::Reach;

/// The names in reach at a step of an unrolled module, in which the names of its signals stand for their numbers, and the blocks that are
/// open there.
#[derive(Drop)]
pub struct UnitReach {
    pub reach: Reach,
}
