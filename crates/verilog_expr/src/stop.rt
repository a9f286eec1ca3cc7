// Why the grammar machine is stuck.

/// Why no rule of the grammar goes on.
#[derive(Clone, Copy, Debug, PartialEq, Eq)]
pub enum Stop {
    /// The text is no Verilog of this grammar.
    Syntax,
    /// The standard has this form, and this language hasn't.
    NotInProfile,
}
