// Values at the beginning.
use typed_ir::SignalId;

/// What a variable has at the beginning, by its declaration: a value below 2 ^ width of the variable.
#[derive(Clone, Copy, Debug)]
pub struct InitialValue {
    pub signal: SignalId,
    pub value: u128,
}
