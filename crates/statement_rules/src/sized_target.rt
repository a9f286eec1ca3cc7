// Targets, sized.
ghost use Rattle.std.specs.Prelude.{◌≤◌};

use typed_ir::Target;

/// The parts of a target from left to right, and how many bits they take together: 1 to 128.
#[derive(Drop)]
pub struct SizedTarget {
    pub parts: Vec<Target>,
    pub width: u8,
    ghost at_least_one: { 1 ≤ width },
    ghost at_most_128: { width ≤ 128 },
}
