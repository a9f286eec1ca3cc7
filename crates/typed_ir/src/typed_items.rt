// The sized items of a module, with their places.
use crate::shape_list::ShapeList;
use crate::signal_declaration::SignalDeclaration;
use crate::signal_id::SignalId;
use crate::typed_item::TypedItem;
use crate::unit_signal::UnitSignal;

/// The sized items of a module in the order of its text, with their places, over its own numbers of signals, its ports first, in
/// header order: what a unit is made of when its bits are found to be driven well.
#[derive(Drop)]
pub struct TypedItems {
    pub signals: Vec<UnitSignal>,
    /// Of each signal, what it is declared as.
    pub declarations: Vec<SignalDeclaration>,
    /// The signals that are registers, in order.
    pub registers: Vec<SignalId>,
    /// The data inputs.
    pub inputs: Vec<SignalId>,
    pub items: Vec<TypedItem>,
    /// The instances, in item order.
    pub shapes: ShapeList,
}
