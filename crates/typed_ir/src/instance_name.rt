// Names of instances.
use crate::instance_id::InstanceId;
use ls_text::NameId;

/// An instance of a table: the one that it stands in, which stands before it, and its own name. The top stands in none.
#[derive(Clone, Copy, Debug, PartialEq, Eq)]
pub struct InstanceName {
    pub parent: Option<InstanceId>,
    pub name: NameId,
}
