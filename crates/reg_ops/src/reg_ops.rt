// A list of operations on registers.
ghost use Rattle.std.specs.Prelude.{◌≡◌};

use crate::RegOp;
use std::marker::Model;

/// Operations on registers, in their order. Contracts see it as the list of these.
#[derive(Debug, Drop)]
pub struct RegOps {
    ops: Vec<RegOp>,
}

impl Model for RegOps {
    ghost use Rattle.std.specs.Prelude.{List};
    ghost use Rattle.reg_ops.specs.declared.reg_op.RegOp.{RegOp};

    ghost Value = { List RegOp };

    ghost view = { λ l. l.ops.items };
}

impl RegOps {
    /// The list of these. It takes no memory.
    pub fn new(ops: Vec<RegOp>) -> Self
        ensures { result ≡ ops.items }
    {
        RegOps { ops }
    }

    /// The operations, from the first one on.
    pub fn as_slice(&self) -> &[RegOp]
        ensures { result.now ≡ self.now }
    {
        &self.ops
    }

    /// Gives the operations back. It takes no memory.
    pub fn into_vec(self) -> Vec<RegOp>
        ensures { result.items ≡ self }
    {
        self.ops
    }
}
