// The text that a reader of std has left.
ghost use Rattle.std.specs.Prelude.{◌≡◌, ◌≤◌, ◌<◌, vec_len, IfOk};
ghost use Rattle.std.specs.Io.KnownBytes.{Consumes, IsAtEnd};

use crate::ShelfRefusal;
use crate::given_text::MOST_GIVEN;
use std::alloc::Global;
use std::io::Read;

/// The most bytes that one read asks for.
const PIECE: usize = 16_384;

/// Reads to the end, or 4,194,305 bytes. Each error of the reader is `Failed`; else memory ran out.
pub fn whole_text<R: Read>(alloc: Global, reader: &mut R) -> Result<Vec<u8>, ShelfRefusal>
    ensures bound { IfOk result (λ text. vec_len text ≤ 4194305) }
    ensures taken { IfOk result (λ text. Consumes (R.remaining reader.old) (R.remaining reader.new) text.items) }
    ensures whole { IfOk result (λ text. vec_len text < 4194305 → IsAtEnd (R.remaining reader.new)) }
{
    let mut text = Vec::new(alloc);
    let mut piece = [0u8; PIECE];
    while text.len() < MOST_GIVEN {
        let room = PIECE.min(MOST_GIVEN - text.len());
        match reader.read(&mut piece[..room]) {
            Ok(0) => return Ok(text),
            Ok(count) => text.extend_from_slice(&piece[..count])?,
            Err(_) => return Err(ShelfRefusal::Failed),
        }
    }
    Ok(text)
}
