// The operations of a block.
ghost use Rattle.std.specs.Prelude.{◌≡◌};

use crate::OpLine;
use std::marker::Model;

/// The operations of a block on registers, in line order. Contracts see it as the list of these.
#[derive(Debug, Drop)]
pub struct OpLines {
    lines: Vec<OpLine>,
}

impl Model for OpLines {
    ghost use Rattle.std.specs.Prelude.{List};
    ghost use Rattle.command_read.specs.declared.op_line.OpLine.{OpLine};

    ghost Value = { List OpLine };

    ghost view = { λ l. l.lines.items };
}

impl OpLines {
    /// The list of these. It takes no memory.
    pub fn new(lines: Vec<OpLine>) -> Self
        ensures { result ≡ lines.items }
    {
        OpLines { lines }
    }

    /// The operations of the list, from the first one on.
    pub fn as_slice(&self) -> &[OpLine]
        ensures { result.now ≡ self.now }
    {
        &self.lines
    }

    /// Gives the operations back. It takes no memory.
    pub fn into_vec(self) -> Vec<OpLine>
        ensures { result.items ≡ self }
    {
        self.lines
    }
}
