// What the first walk says of an expression.
ghost use Rattle.std.specs.Prelude.{◌≤◌};

use crate::opened::Open;
use verilog_ast::Child;

/// An expression that has no fault: its own length of 1 to 128 bits, whether it is signed, whether no net and no variable is in it,
/// and what its context may still change.
#[derive(Drop)]
pub struct Measured {
    pub length: u8,
    pub signed: bool,
    pub constant: bool,
    pub form: Child<Open>,
    ghost at_least_one: { 1 ≤ length },
    ghost at_most_128: { length ≤ 128 },
}
