// Words of registers copied over, as one block.
ghost use Rattle.std.specs.Prelude.{◌≡◌, ◌≤◌, ◌<◌, ◌+◌, length};
ghost use Rattle.word_steps.specs.Walks.{env_of};
ghost use Rattle.design_steps.specs.Moves.{block};

use crate::signal_words::place_above;

/// Copies so many words from one place on to another.
pub fn carry(from: usize, to: usize, count: usize, words: &mut [u128])
    requires first { from + count < length words.old }
    requires second { to + count ≤ length words.old }
    ensures { env_of words.new ≡ block from to count (env_of words.old) }
{
    let end = place_above(from, count, words.len());
    words.copy_within(from..end, to);
}
