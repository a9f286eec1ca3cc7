// Expressions, and the names with their selects that stand in them.
ghost use Rattle.std.specs.Prelude.{◌≡◌};
ghost use Rattle.verilog_ast.specs.Places.{expression_place};
ghost use Rattle.verilog_ast.specs.Views.{expression_of, reference_of};

use crate::binary_operator::BinaryOperator;
use crate::identifier::Identifier;
use crate::nodes::{Child, Children};
use crate::number::Number;
use crate::unary_operator::UnaryOperator;
use ls_text::Place;

/// An expression. Brackets have a node of their own, so that the first token of each expression has its place.
#[cycle(expression)]
#[derive(Drop)]
pub enum Expr {
    Number(Place, Number),
    Read(Reference),
    Unary(Place, UnaryOperator, Child<Expr>),
    Binary(BinaryOperator, Child<Expr>, Child<Expr>),
    /// `c ? a : b`
    Conditional(Child<Expr>, Child<Expr>, Child<Expr>),
    /// `{a, b}`, at its brace
    Concatenation(Place, Children<Expr>),
    /// `{n{a, b}}`, at its first brace
    Replication(Place, Child<Expr>, Children<Expr>),
    /// `(a)`, at its bracket
    Bracketed(Place, Child<Expr>),
}

/// A name, with a select or without.
#[cycle(expression)]
#[derive(Drop)]
pub enum Reference {
    Whole(Identifier),
    /// `x[i]`
    Bit(Identifier, Child<Expr>),
    /// `x[high:low]`
    Part(Identifier, Child<Expr>, Child<Expr>),
    /// `x[base +: width]`
    Upward(Identifier, Child<Expr>, Child<Expr>),
    /// `x[base -: width]`
    Downward(Identifier, Child<Expr>, Child<Expr>),
}

impl Expr {
    /// The place of its first token.
    pub fn place(&self) -> Place
        ensures { result ≡ expression_place (expression_of self.now) }
    {
        match self {
            Expr::Number(at, _)
            | Expr::Unary(at, _, _)
            | Expr::Concatenation(at, _)
            | Expr::Replication(at, _, _)
            | Expr::Bracketed(at, _) => *at,
            Expr::Read(reference) => reference.place(),
            Expr::Binary(_, left, _) => left.get().place(),
            Expr::Conditional(condition, _, _) => condition.get().place(),
        }
    }
}

impl Reference {
    /// The place of its name.
    pub fn place(&self) -> Place
        ensures { result ≡ expression_place (reference_of self.now) }
    {
        match self {
            Reference::Whole(name)
            | Reference::Bit(name, _)
            | Reference::Part(name, _, _)
            | Reference::Upward(name, _, _)
            | Reference::Downward(name, _, _) => name.at,
        }
    }
}
