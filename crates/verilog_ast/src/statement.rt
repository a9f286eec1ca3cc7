// Statements of an `always` block.
ghost use Rattle.std.specs.Prelude.{◌≡◌};
ghost use Rattle.verilog_ast.specs.Places.{statement_place};
ghost use Rattle.verilog_ast.specs.Views.{statement_of};

use crate::case_kind::CaseKind;
use crate::expression::Expr;
use crate::identifier::Identifier;
use crate::label::Label;
use crate::nodes::{Child, Children};
use crate::target::Lhs;
use ls_text::Place;

/// A statement, at its first token.
#[cycle(statement)]
#[derive(Drop)]
pub enum Stmt {
    /// `begin .. end`, with its label
    Block(Place, Option<Identifier>, Children<Stmt>),
    If(Place, Child<Expr>, Child<Stmt>),
    IfElse(Place, Child<Expr>, Child<Stmt>, Child<Stmt>),
    Case(Place, CaseKind, Child<Expr>, Children<Arm>),
    Assign(Lhs, Child<Expr>),
    /// `;`
    Empty(Place),
}

/// One item of a `case`.
#[cycle(statement)]
#[derive(Drop)]
pub enum Arm {
    Default(Place, Child<Stmt>),
    Match(Children<Label>, Child<Stmt>),
}

impl Stmt {
    /// The place of its first token.
    pub fn place(&self) -> Place
        ensures { result ≡ statement_place (statement_of self.now) }
    {
        match self {
            Stmt::Block(at, _, _)
            | Stmt::If(at, _, _)
            | Stmt::IfElse(at, _, _, _)
            | Stmt::Case(at, _, _, _)
            | Stmt::Empty(at) => *at,
            Stmt::Assign(target, _) => target.place(),
        }
    }
}
