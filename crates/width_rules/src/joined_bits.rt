// The parts of a concatenation that has a part and is not too wide.
ghost use Rattle.std.specs.Prelude.{◌≤◌};

use typed_ir::Typed;
use verilog_ast::Child;

/// Parts of a concatenation, of 1 to 128 bits together.
#[derive(Drop)]
pub struct JoinedBits {
    pub typed: Child<Typed>,
    ghost at_least_one: { 1 ≤ typed.width },
    ghost at_most_128: { typed.width ≤ 128 },
}
