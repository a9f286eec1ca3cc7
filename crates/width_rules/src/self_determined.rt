// Expressions at their own length and sign.
ghost use Rattle.std.specs.Prelude.{◌≡◌, ◌≤◌, true, [], IsTrue};
ghost use Rattle.typed_ir.specs.Forms.{sized};
ghost use Rattle.typed_ir.specs.Sized.{fits_signals};

use typed_ir::Typed;
use verilog_ast::Child;

/// An expression at its own length, of 1 to 128 bits, and its own sign; whether it is signed, and whether no net and no variable is in it: then it reads none.
#[derive(Drop)]
pub struct Own {
    pub typed: Child<Typed>,
    pub signed: bool,
    pub constant: bool,
    ghost at_least_one: { 1 ≤ typed.width },
    ghost at_most_128: { typed.width ≤ 128 },
    ghost closed: { constant ≡ true → IsTrue (fits_signals (sized typed.form) []) },
}
