// What a name stands for.
use crate::signal_entry::SignalEntry;
use typed_ir::Const;

/// What a name that is declared stands for.
#[derive(Clone, Copy, Debug)]
pub enum Entry {
    /// A net or variable.
    Signal(SignalEntry),
    /// A parameter.
    Constant(Const),
    /// A genvar within its loop, with its value in this turn.
    Turn(Const),
    /// A genvar outside of its loop.
    Genvar,
    /// What no expression can use: a label or an instance, or a name that nothing declares.
    Unknown,
}
