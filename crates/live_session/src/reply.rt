// The answer to a command.
ghost use Rattle.live_session.specs.Turns.{Accepts};

use ls_text::TextBytes;

/// The lines that answer a command, whether it is refused, and whether the run ends with it.
#[derive(Debug, Drop)]
pub struct Reply {
    pub lines: TextBytes,
    pub refused: bool,
    pub quit: bool,
}

impl Reply {
    /// The reply that accepts a command, with these lines.
    pub(crate) fn accepted(lines: Vec<u8>) -> Reply
        ensures { Accepts lines.items result }
    {
        Reply {
            lines: TextBytes::new(lines),
            refused: false,
            quit: false,
        }
    }
}
