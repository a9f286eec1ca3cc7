// Items that are sized so far.
use crate::initial_value::InitialValue;
use typed_ir::TypedItem;

/// The sized items of a module so far, and the values that its declarations give at the beginning, both in the order of the text.
#[derive(Drop)]
pub struct ItemList {
    pub items: Vec<TypedItem>,
    pub initials: Vec<InitialValue>,
}
