// Jobs whose names are texts.
use ls_text::NameId;
use std::alloc::Global;
use std::sync::Arc;
use typed_ir::{ConstList, ShapeList};
use verilog_ast::Module;

/// A job of which the names within generate blocks are texts still: they get their numbers when the texts of all jobs stand.
#[derive(Drop)]
pub struct UnnamedJob {
    pub module: Arc<Module, Global>,
    pub parameters: ConstList,
    pub clock: Option<NameId>,
    pub children: ShapeList,
    pub texts: Vec<Vec<u8>>,
}
