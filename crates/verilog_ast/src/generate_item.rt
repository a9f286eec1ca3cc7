// Items of generate blocks.
ghost use Rattle.std.specs.Prelude.{◌≡◌, map};
ghost use Rattle.verilog_ast.specs.Places.{item_place};
ghost use Rattle.verilog_ast.specs.Views.{branch_of, generate_item_of, items_of};

use crate::expression::Expr;
use crate::generate_loop::Loop;
use crate::identifier::Identifier;
use crate::nodes::{Child, Children};
use crate::plain_item::PlainItem;
use ls_text::Place;

/// An item that may stand in a generate block.
#[cycle(generate)]
#[derive(Drop)]
pub enum GenerateItem {
    Plain(PlainItem),
    /// `for (..) begin : label .. end`, at its `for`
    For(Place, Loop, Identifier, Children<GenerateItem>),
    /// The branches in their order: each but a last `else` has a condition.
    If(Children<Branch>),
}

/// `if (condition) begin : label .. end`, at its `if`, or the block of an `else` without a condition, at its `begin`
#[cycle(generate)]
#[derive(Drop)]
pub struct Branch {
    pub at: Place,
    pub condition: Option<Child<Expr>>,
    pub label: Identifier,
    pub items: Children<GenerateItem>,
}

// The place of the first branch.
fn first_place(branches: &[Branch]) -> Place
    ensures { result ≡ item_place (items_of (map branch_of branches.now)) }
{
    match branches.split_first() {
        Some((first, _)) => first.at,
        None => Place {
            file: 0,
            line: 1,
            col: 1,
        },
    }
}

impl GenerateItem {
    /// The place of its first token.
    pub fn place(&self) -> Place
        ensures { result ≡ item_place (generate_item_of self.now) }
    {
        match self {
            GenerateItem::Plain(item) => item.place(),
            GenerateItem::For(at, _, _, _) => *at,
            GenerateItem::If(branches) => first_place(branches.as_slice()),
        }
    }
}
