// What an assignment writes.
ghost use Rattle.std.specs.Prelude.{◌≡◌};
ghost use Rattle.verilog_ast.specs.Places.{target_place};
ghost use Rattle.verilog_ast.specs.Views.{target_of};

use crate::expression::Reference;
use crate::nodes::Children;
use ls_text::Place;

/// The left side of an assignment.
#[derive(Drop)]
pub enum Lhs {
    Reference(Reference),
    /// `{a, b}`, at its brace
    Concatenation(Place, Children<Lhs>),
}

impl Lhs {
    /// The place of its first token.
    pub fn place(&self) -> Place
        ensures { result ≡ target_place (target_of self.now) }
    {
        match self {
            Lhs::Reference(reference) => reference.place(),
            Lhs::Concatenation(at, _) => *at,
        }
    }
}
