// Lines, words and the forms of values.
ghost use Rattle.std.specs.Prelude.{◌≡◌, ◌==◌, ◌+◌, ◌-◌, ◌<◌, ◌≤◌, not, [], ◌∷◌, length, take, drop, IfSome, MatchOption, ℕ, List, Bool};
ghost use Rattle.std.specs.List.{prefix_len};
ghost use Rattle.std.specs.Option.{option_map};
ghost use Rattle.std.specs.Str.Lines.{strip_carriage_return};
ghost use Rattle.command_read.specs.Lines.{parts_words, words, is_skipped, are_just, begin_with, only, both};
ghost use Rattle.command_read.specs.Values.{is_identifier, parted_at, number_in, count_of, hex_of, register_of, shown_of};

use ls_text::{byte_at, is_letter, word_len};

/// Whether a byte parts words.
fn parts_words(byte: u8) -> bool
    ensures { result ≡ parts_words byte }
{
    byte == b' ' || byte == b'\t'
}

fn gap_len(line: &[u8]) -> usize
    ensures value { result ≡ prefix_len parts_words line.now }
    ensures within { result ≤ length line.now }
{
    line.iter().take_while(|b| parts_words(**b)).count()
}

fn first_len(line: &[u8]) -> usize
    ensures value { result ≡ prefix_len (λ c. not (parts_words c)) line.now }
    ensures within { result ≤ length line.now }
{
    line.iter().take_while(|b| !parts_words(**b)).count()
}

/// The first word of a line, and what follows it.
pub fn next_word(line: &[u8]) -> Option<(&[u8], &[u8])>
    ensures word { MatchOption result (words line.now ≡ []) (λ x. words line.now ≡ x.0.now ∷ words x.1.now) }
    ensures shorter { IfSome result (λ x. length x.1.now < length line.now) }
{
    let rest = line.split_at(gap_len(line)).1;
    if rest.is_empty() {
        return None;
    }
    Some(rest.split_at(first_len(rest)))
}

/// Whether a line outside texts says nothing.
pub fn is_skipped(line: &[u8]) -> bool
    ensures { result ≡ is_skipped (words line.now) }
{
    match next_word(line) {
        Some((word, _)) => byte_at(word, 0) == b'#',
        None => true,
    }
}

/// Whether a line is this one word.
pub fn is_just(word: &[u8], line: &[u8]) -> bool
    ensures { result ≡ are_just word.now (words line.now) }
{
    match next_word(line) {
        Some((first, rest)) => first == word && next_word(rest).is_none(),
        None => false,
    }
}

/// Whether the first word of a line is this one.
pub fn begins_with(word: &[u8], line: &[u8]) -> bool
    ensures { result ≡ begin_with word.now (words line.now) }
{
    match next_word(line) {
        Some((first, _)) => first == word,
        None => false,
    }
}

/// The word of a line that has no other.
pub fn only_word(line: &[u8]) -> Option<&[u8]>
    ensures { option_map (λ w. w.now) result ≡ only (words line.now) }
{
    let (word, rest) = next_word(line)?;
    match next_word(rest) {
        Some(_) => None,
        None => Some(word),
    }
}

/// The words of a line of two.
pub fn two_words(line: &[u8]) -> Option<(&[u8], &[u8])>
    ensures { option_map (λ w. (w.0.now, w.1.now)) result ≡ both (words line.now) }
{
    let (word, rest) = next_word(line)?;
    match only_word(rest) {
        Some(other) => Some((word, other)),
        None => None,
    }
}

/// Whether a word is an identifier.
#[tactic(auto, unfolding(crate::specs::Values::is_identifier))]
pub fn is_identifier(word: &[u8]) -> bool
    ensures { result ≡ is_identifier word.now }
{
    match word {
        [first, rest @ ..] => is_letter(*first) && word_len(rest) == rest.len(),
        [] => false,
    }
}

fn len_before(byte: u8, word: &[u8]) -> usize
    ensures value { result ≡ prefix_len (λ b. not (b == byte)) word.now }
    ensures within { result ≤ length word.now }
{
    word.iter().take_while(|b| **b != byte).count()
}

/// What stands before the first such byte of a word, and what behind it.
#[tactic(auto, unfolding(crate::specs::Values::parted_at))]
pub fn parted_at(byte: u8, word: &[u8]) -> Option<(&[u8], &[u8])>
    ensures { option_map (λ r. (r.0.now, r.1.now)) result ≡ parted_at byte word.now }
{
    let n = len_before(byte, word);
    if n < word.len() {
        Some((word.split_at(n).0, word.split_at(n + 1).1))
    } else {
        None
    }
}

/// A module and the name of a register within it.
#[tactic(auto, unfolding(crate::specs::Values::register_of))]
pub fn register_of(word: &[u8]) -> Option<(&[u8], &[u8])>
    ensures { option_map (λ r. (r.0.now, r.1.now)) result ≡ register_of word.now }
{
    let (owner, register) = parted_at(b'.', word)?;
    if is_identifier(owner) && !register.is_empty() {
        Some((owner, register))
    } else {
        None
    }
}

/// What a bad value shows: the port where an identifier stands before `=`, else the whole word.
#[tactic(auto, unfolding(crate::specs::Values::shown_of))]
pub fn shown_of(word: &[u8]) -> &[u8]
    ensures { result.now ≡ shown_of word.now }
{
    match parted_at(b'=', word) {
        Some((port, _)) if is_identifier(port) => port,
        _ => word,
    }
}
