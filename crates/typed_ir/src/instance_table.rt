// The instances of a design.
ghost use Rattle.std.specs.Prelude.{IsTrue};
ghost use Rattle.typed_ir.specs.Paths.{parents_of, parents_before};

use crate::instance_name::InstanceName;

/// The instances of a design: each stands behind the one that it stands in, the first alone in none. The path of an instance is the
/// names of those that it stands in, from the top on, and then its own (IEEE Std 1364-2005, 12.4); it takes no list of its own.
#[derive(Debug, Drop)]
pub struct InstanceTable {
    pub rows: Vec<InstanceName>,
    ghost rooted: { IsTrue (parents_before 0 (parents_of rows.items)) },
}
