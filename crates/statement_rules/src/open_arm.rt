// Items of a case whose length and sign aren't known yet.
use crate::open_label::OpenLabel;
use typed_ir::Stmt;

/// An item of a case with its labels, while the case's length and sign aren't known.
#[derive(Drop)]
pub struct OpenArm {
    pub labels: Vec<OpenLabel>,
    pub body: Stmt,
}
