// The nodes of a module.
use crate::child_id::ChildId;
use crate::lane::Lane;
use crate::node::Node;
use crate::target_form::TargetForm;
use crate::typed::Typed;

/// A node of a module. The instances within a module are numbered in item order, and the ports of one are its first signals, in
/// header order.
#[derive(Drop)]
pub enum UnitNode {
    /// A continuous assignment or a combinational block.
    Own(Node),
    /// An input connection: lanes by the numbers of the instance, the expression by those of the module.
    Into {
        child: ChildId,
        form: TargetForm,
        lanes: Vec<Lane>,
        value: Typed,
    },
    /// An output connection: lanes by the numbers of the module, the expression by those of the instance.
    From {
        child: ChildId,
        form: TargetForm,
        lanes: Vec<Lane>,
        value: Typed,
    },
}
