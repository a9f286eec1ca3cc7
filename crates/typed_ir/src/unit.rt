// Modules that are ready to be linked.
ghost use Rattle.typed_ir.specs.Trees.{IsUnit};
ghost use Rattle.typed_ir.specs.Units.{sized_unit};
ghost use Rattle.typed_ir.specs.OwnWidths.{IsSized};

use crate::unit_parts::UnitParts;

/// A module by its own numbers of signals, which holds no place: no bit has two drivers or two clocked blocks, blocks write each bit
/// on every path and before they read it, nothing in it drives its inputs and registers, and all that it reads and writes lies, with
/// widths that agree, in its own signals and in the ports of the instances in it.
#[derive(Drop)]
pub struct Unit {
    pub parts: UnitParts,
    ghost sound: { ∥ IsUnit (sized_unit parts) ∥₁ },
    ghost sized: { ∥ IsSized parts ∥₁ },
}
