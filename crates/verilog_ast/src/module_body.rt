// What stands in a module.
use crate::header_parameter::HeaderParameter;
use crate::identifier::Identifier;
use crate::item::Item;
use crate::nodes::Children;
use crate::ports::Ports;

/// The name of a module, its header and its items in the order of the text.
#[derive(Drop)]
pub struct ModuleBody {
    pub name: Identifier,
    pub parameters: Children<HeaderParameter>,
    pub ports: Ports,
    pub items: Children<Item>,
}
