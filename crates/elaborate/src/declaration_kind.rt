// Kinds of declarations.
use gen_unroll::ParameterSort;
use verilog_ast::PortNet;

/// What a name is declared as. A port has what stands before its sign: a port that the body declares with `Nothing` there may be declared
/// once more as `wire` or `reg` (IEEE Std 1364-2005, 12.3.3), and is then a port with that.
#[derive(Clone, Copy)]
pub enum DeclarationKind {
    Input(PortNet),
    Output(PortNet),
    Wire,
    Reg,
    Genvar,
    Parameter(ParameterSort),
    Instance,
    /// The label of a generate construct.
    Label,
}
