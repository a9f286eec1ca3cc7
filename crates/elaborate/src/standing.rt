// Instances of a design.
use crate::job::Job;
use gen_unroll::BlockId;
use std::alloc::Global;
use std::sync::Arc;
use typed_ir::InstanceId;
use verilog_ast::Identifier;

/// An instance of a design: the one that it stands in (none for the top), its block and its name there, and the visit of its module under
/// the overrides of its parameters and with its clock port, which instances share.
#[derive(Drop)]
pub struct StandingInstance {
    pub parent: Option<InstanceId>,
    pub block: Option<BlockId>,
    pub name: Identifier,
    pub job: Arc<Job, Global>,
}
