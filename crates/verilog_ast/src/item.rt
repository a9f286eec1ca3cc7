// Items of modules.
ghost use Rattle.std.specs.Prelude.{◌≡◌};
ghost use Rattle.verilog_ast.specs.Places.{item_place};
ghost use Rattle.verilog_ast.specs.Views.{item_of};

use crate::generate_item::GenerateItem;
use crate::identifier::Identifier;
use crate::nodes::Children;
use crate::parameter::Parameter;
use crate::port_net::PortNet;
use crate::shape::Shape;
use crate::variable::Variable;
use ls_text::Place;

/// An item of a module, at its first token.
#[derive(Drop)]
pub enum Item {
    Input(Place, PortNet, Shape, Children<Identifier>),
    Output(Place, PortNet, Shape, Children<Variable>),
    Parameter(Place, Shape, Children<Parameter>),
    /// `generate .. endgenerate`
    Region(Place, Children<GenerateItem>),
    Item(GenerateItem),
}

impl Item {
    /// The place of its first token.
    pub fn place(&self) -> Place
        ensures { result ≡ item_place (item_of self.now) }
    {
        match self {
            Item::Input(at, _, _, _)
            | Item::Output(at, _, _, _)
            | Item::Parameter(at, _, _)
            | Item::Region(at, _) => *at,
            Item::Item(item) => item.place(),
        }
    }
}
