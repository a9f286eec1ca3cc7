// Parts of targets.
ghost use Rattle.std.specs.Prelude.{◌≡◌, ◌≤◌};
ghost use Rattle.typed_ir.specs.Targets.{target_of};
ghost use Rattle.width_rules.specs.References.{part_width, part_end};

use typed_ir::Target;

/// One part of a target, as if nothing stood right of it, and how many bits it takes: 1 to 128.
#[derive(Drop)]
pub struct TargetPart {
    pub target: Target,
    pub width: u8,
    ghost at_least_one: { 1 ≤ width },
    ghost at_most_128: { width ≤ 128 },
    ghost takes: { width ≡ part_width (target_of target) },
    ghost within: { part_end (target_of target) ≤ 128 },
}
