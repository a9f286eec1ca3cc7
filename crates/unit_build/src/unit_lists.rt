// What a module has beside its items.
use typed_ir::{ShapeList, SignalDeclaration, SignalId, UnitSignal};

/// What a module has beside its items: its signals with what they have at the beginning, what these are declared as, the numbers of its
/// registers and of its data inputs, and the shapes of its instances.
#[derive(Drop)]
pub struct UnitLists {
    pub signals: Vec<UnitSignal>,
    pub declarations: Vec<SignalDeclaration>,
    pub registers: Vec<SignalId>,
    pub inputs: Vec<SignalId>,
    pub shapes: ShapeList,
}
