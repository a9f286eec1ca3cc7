// Instances of a design.
use crate::const_list::ConstList;
use crate::instance_name::InstanceName;
use crate::port_list::PortList;
use ls_text::NameId;

/// An instance of a design: where it stands and its name, its module with the values of its parameters, its clock port where it has
/// one, and its ports in header order.
#[derive(Debug, Drop)]
pub struct Instance {
    pub place: InstanceName,
    pub of_module: NameId,
    pub parameters: ConstList,
    pub clock: Option<NameId>,
    pub ports: PortList,
}
