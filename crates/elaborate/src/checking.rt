// What is known of a module at a step of its checks.
use crate::child_instance::ChildInstance;
use crate::declaration::Declaration;
use crate::declarations::Declarations;
use module_names::NameOrder;
use std::alloc::Global;
use typed_ir::Const;

/// What is known of a module at a step of its checks: the ports of its header and the declaration of the last one, the values of its
/// parameters outside of generate blocks, what it declares so far, and its instances so far.
#[derive(Drop)]
pub struct Checking {
    pub alloc: Global,
    pub ports: NameOrder,
    pub port: Declaration,
    pub parameters: Vec<Const>,
    pub declared: Declarations,
    pub children: Vec<ChildInstance>,
}
