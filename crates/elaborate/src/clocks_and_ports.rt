// What the visit of a module finds behind its checks.
use ls_text::NameId;
use typed_ir::PortShape;

/// The clock port of each instance of a module, and the module's own ports in the order of its header.
#[derive(Drop)]
pub struct ClocksAndPorts {
    pub clocks: Vec<Option<NameId>>,
    pub ports: Vec<PortShape>,
}
