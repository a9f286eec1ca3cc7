// What a unit is built from.
use ls_text::{NameId, NameList};
use std::alloc::Global;
use std::sync::Arc;
use typed_ir::{ConstList, ShapeList};
use verilog_ast::Module;

/// What a unit is built from: a module as it is used.
#[derive(Drop)]
pub struct BuildJob {
    pub module: Arc<Module, Global>,
    /// The value of each parameter and localparam outside of generate blocks, in the order of the text.
    pub parameters: ConstList,
    /// The clock port, where the module has one.
    pub clock: Option<NameId>,
    /// The instances within, in item order.
    pub children: ShapeList,
    /// What the nets and variables within generate blocks are called (`g[0].x`), in the order of the text. It follows from the rest.
    pub names: NameList,
}
