// An instance within a module, as the module sees it.
use crate::port_list::PortList;
use ls_text::NameId;

/// An instance within a module: its name, its clock port where it has one, and its ports in header order.
#[derive(Debug, Drop)]
pub struct ChildShape {
    pub instance: NameId,
    pub clock: Option<NameId>,
    pub ports: PortList,
}
