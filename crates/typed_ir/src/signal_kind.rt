// Kinds of signals.

/// What a name of a module is declared as.
#[derive(Clone, Copy, Debug, PartialEq, Eq)]
pub enum SignalKind {
    /// An input port; nothing in the module writes it.
    Input,
    /// A net, which continuous assignments and output connections drive.
    Net,
    /// A variable, which blocks write.
    Variable,
}
