// Items without a generate construct.
ghost use Rattle.std.specs.Prelude.{◌≡◌};
ghost use Rattle.verilog_ast.specs.Places.{item_place};
ghost use Rattle.verilog_ast.specs.Views.{plain_item_of};

use crate::connections::Connections;
use crate::continuous::Continuous;
use crate::identifier::Identifier;
use crate::instance::Instance;
use crate::nodes::{Child, Children};
use crate::parameter::Parameter;
use crate::reg_variable::RegVariable;
use crate::shape::Shape;
use crate::statement::Stmt;
use crate::variable::Variable;
use ls_text::Place;

/// An item without a generate construct, at its first token.
#[derive(Drop)]
pub enum PlainItem {
    Wire(Place, Shape, Children<Variable>),
    Reg(Place, Shape, Children<RegVariable>),
    LocalParameter(Place, Shape, Children<Parameter>),
    Genvar(Place, Children<Identifier>),
    Assign(Place, Children<Continuous>),
    /// `always @*` or `always @(*)`
    Combinational(Place, Child<Stmt>),
    /// `always @(posedge clock)`
    Clocked(Place, Identifier, Child<Stmt>),
    Instances(Identifier, Option<Connections>, Children<Instance>),
}

impl PlainItem {
    /// The place of its first token.
    pub fn place(&self) -> Place
        ensures { result ≡ item_place (plain_item_of self.now) }
    {
        match self {
            PlainItem::Wire(at, _, _)
            | PlainItem::Reg(at, _, _)
            | PlainItem::LocalParameter(at, _, _)
            | PlainItem::Genvar(at, _)
            | PlainItem::Assign(at, _)
            | PlainItem::Combinational(at, _)
            | PlainItem::Clocked(at, _, _) => *at,
            PlainItem::Instances(module, _, _) => module.at,
        }
    }
}
