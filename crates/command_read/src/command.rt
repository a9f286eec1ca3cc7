// A command of a script.
use crate::{Edit, PortValues};
use ls_text::TextBytes;

/// A command, with its line, counted from 1.
#[derive(Debug, Drop)]
pub enum Command {
    /// A block that edits the texts of the design.
    Edit(Edit),
    /// `set`: values for ports.
    Set { line: u64, values: PortValues },
    /// `run`: so many cycles.
    Run { line: u64, n: u64 },
    /// `show`: the registers whose paths begin with this.
    Show { line: u64, prefix: TextBytes },
    /// `settle`: with at most so many passes, from 1 to 1024; where none are said, as many as there are links.
    Settle { line: u64, passes: Option<u32> },
    /// `status`.
    Status { line: u64 },
    /// `quit`.
    Quit { line: u64 },
}
