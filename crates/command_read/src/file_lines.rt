// The files that a block gives.
ghost use Rattle.std.specs.Prelude.{◌≡◌};

use crate::FileLine;
use std::marker::Model;

/// The files that a block gives, in line order. Contracts see it as the list of these.
#[derive(Debug, Drop)]
pub struct FileLines {
    lines: Vec<FileLine>,
}

impl Model for FileLines {
    ghost use Rattle.std.specs.Prelude.{List};
    ghost use Rattle.command_read.specs.declared.file_line.FileLine.{FileLine};

    ghost Value = { List FileLine };

    ghost view = { λ l. l.lines.items };
}

impl FileLines {
    /// The list of these. It takes no memory.
    pub fn new(lines: Vec<FileLine>) -> Self
        ensures { result ≡ lines.items }
    {
        FileLines { lines }
    }

    /// The files of the list, from the first one on.
    pub fn as_slice(&self) -> &[FileLine]
        ensures { result.now ≡ self.now }
    {
        &self.lines
    }

    /// Gives the files back. It takes no memory.
    pub fn into_vec(self) -> Vec<FileLine>
        ensures { result.items ≡ self }
    {
        self.lines
    }
}
