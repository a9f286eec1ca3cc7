// How a reading ends.
use crate::Command;
use ls_text::Fault;

/// What a call of a reader ends with. After one of the last four it answers the same again.
#[derive(Debug, Drop)]
pub enum ReadEnd {
    /// A command.
    Command(Command),
    /// A line that is refused, or a block with such a line: 10, 60, 61 or 66.
    Refused(Fault),
    /// The end of the input.
    End,
    /// The source failed.
    Fault,
    /// More than 67,108,864 bytes came.
    TooMuch,
    /// Memory ran out.
    NoMemory,
}
