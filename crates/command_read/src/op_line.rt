// An operation of a block.
use reg_ops::RegOp;

/// An operation of a block on registers, and the line where it stands.
#[derive(Clone, Copy, Debug, PartialEq, Eq)]
pub struct OpLine {
    pub line: u64,
    pub op: RegOp,
}
