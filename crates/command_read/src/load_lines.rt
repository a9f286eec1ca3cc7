// The files that a block loads.
ghost use Rattle.std.specs.Prelude.{◌≡◌};

use crate::LoadLine;
use std::marker::Model;

/// The files that a block loads, in line order. Contracts see it as the list of these.
#[derive(Debug, Drop)]
pub struct LoadLines {
    lines: Vec<LoadLine>,
}

impl Model for LoadLines {
    ghost use Rattle.std.specs.Prelude.{List};
    ghost use Rattle.command_read.specs.declared.load_line.LoadLine.{LoadLine};

    ghost Value = { List LoadLine };

    ghost view = { λ l. l.lines.items };
}

impl LoadLines {
    /// The list of these. It takes no memory.
    pub fn new(lines: Vec<LoadLine>) -> Self
        ensures { result ≡ lines.items }
    {
        LoadLines { lines }
    }

    /// The files of the list, from the first one on.
    pub fn as_slice(&self) -> &[LoadLine]
        ensures { result.now ≡ self.now }
    {
        &self.lines
    }

    /// Gives the files back. It takes no memory.
    pub fn into_vec(self) -> Vec<LoadLine>
        ensures { result.items ≡ self }
    {
        self.lines
    }
}
