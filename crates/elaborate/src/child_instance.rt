// Instances within a module.
use gen_unroll::BlockId;
use typed_ir::Const;
use verilog_ast::Identifier;

/// An instance within a module: its block (none for the module itself) and its name, the name of its module where it is instantiated, and
/// the overrides of that module's parameters, in their order.
#[derive(Drop)]
pub struct ChildInstance {
    pub block: Option<BlockId>,
    pub name: Identifier,
    pub instantiated: Identifier,
    pub overrides: Vec<Option<Const>>,
}
