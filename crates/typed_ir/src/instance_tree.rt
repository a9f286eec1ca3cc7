// The instances of a design.
ghost use Rattle.std.specs.Prelude.{IsTrue, map};
ghost use Rattle.typed_ir.specs.Instances.{parent_of, is_depth_first};

use crate::instance::Instance;

/// The instances of a design, depth first: the first is the top, and each other stands in the one before it or in one that this
/// stands in.
#[derive(Drop)]
pub struct InstanceTree {
    pub instances: Vec<Instance>,
    ghost depth_first: { IsTrue (is_depth_first (map parent_of instances.items)) },
}
