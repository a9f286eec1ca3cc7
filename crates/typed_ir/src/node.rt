// Nodes.
use crate::lane::Lane;
use crate::shown_target::ShownTarget;
use crate::stmt::Stmt;
use crate::target_form::TargetForm;
use crate::typed::Typed;

/// What drives some bits at all times.
#[derive(Drop)]
pub enum Node {
    /// A continuous assignment or a connection: the form in which its first target is shown, the parts of its target from left to
    /// right, and what drives them.
    Drive {
        form: TargetForm,
        lanes: Vec<Lane>,
        value: Typed,
    },
    /// A combinational block, with the target by which it is named.
    Block {
        shown: ShownTarget,
        body: Stmt,
    },
}
