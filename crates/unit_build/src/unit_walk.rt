// What sizing goes by.
use gen_unroll::UnitReach;
use typed_ir::{ChildId, ChildShape};

/// Where sizing stands at a step of an unrolled module: the names in reach there, the number of the next instance, and the shapes of
/// the instances from that one on.
#[derive(Drop)]
pub struct UnitWalk<'a> {
    pub here: UnitReach,
    pub child: ChildId,
    pub left: &'a [ChildShape],
}
