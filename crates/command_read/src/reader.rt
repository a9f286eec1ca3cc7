// What reads the commands of a script.
ghost use Rattle.std.specs.Prelude.{vec_len};
ghost use Rattle.command_read.specs.Sound.{IsSound};

use crate::stop::Stop;
use std::alloc::Global;

/// Reads the commands of a script from a source.
///
/// It holds the bytes that were taken and not yet handed out as commands, each once.
#[derive(Drop)]
pub struct Reader {
    pub(crate) alloc: Global,
    /// Where a read puts its bytes.
    pub(crate) piece: Vec<u8>,
    /// Bytes that were taken. Those before `at` are handed out.
    pub(crate) held: Vec<u8>,
    pub(crate) at: usize,
    /// The line that begins at `at`, counted from 1.
    pub(crate) number: u64,
    /// How many bytes were taken.
    pub(crate) taken: u64,
    /// Whether the input's end was seen.
    pub(crate) ended: bool,
    /// Why nothing is handed out any more.
    pub(crate) stop: Option<Stop>,
    ghost sound: { IsSound (vec_len piece) (vec_len held) at number taken stop },
}
