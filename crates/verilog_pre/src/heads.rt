// Telling what stands at the head of a text.
ghost use Rattle.std.specs.Prelude.{◌≡◌, ◌<◌, ◌≤◌, ◌+◌, length, false};
ghost use Rattle.ls_text.specs.Bytes.{through_pair};
ghost use Rattle.verilog_pre.specs.Heads.{plain_len, comment_head, head_of, Within};

use crate::body::begins_cut;
use crate::head::Head;
use ls_text::{behind, byte_at, is_letter, line_len, through_pair, word_len};

// How many bytes stand before the next comment or directive, behind a first byte that begins none.
fn plain_len(text: &[u8]) -> usize
    ensures value { result ≡ plain_len 0 1 text.now }
    ensures within { result ≤ length text.now + 1 }
    ensures some { 1 ≤ result }
{
    let mut last = 0;
    let mut n = 1;
    for byte in text {
        if begins_cut(last, *byte) {
            return n - 1;
        }
        last = *byte;
        n += 1;
    }
    n
}

// A comment, by what is inside.
fn comment_head(inside: &[u8]) -> Head
    requires { length inside.now < 4294967296 }
    ensures value { result ≡ comment_head (through_pair 42 47 false 0 inside.now) }
    ensures within { Within (2 + length inside.now) result }
{
    match through_pair(b'*', b'/', inside) {
        Some(n) => Head::Comment(2 + n),
        None => Head::OpenComment,
    }
}

/// What stands at the head of a text that isn't empty. The text has at most 4,194,304 bytes.
#[tactic(auto, unfolding(crate::specs::Heads::head_of))]
pub fn head_of(text: &[u8]) -> Head
    requires some { 0 < length text.now }
    requires room { length text.now ≤ 4194304 }
    ensures value { result ≡ head_of text.now }
    ensures within { Within (length text.now) result }
{
    let first = byte_at(text, 0);
    let second = byte_at(text, 1);
    if first == b'/' && second == b'/' {
        Head::Comment(line_len(text))
    } else if first == b'/' && second == b'*' {
        comment_head(behind(text, 2))
    } else if first == b'`' && is_letter(second) {
        Head::Word(word_len(behind(text, 1)))
    } else {
        Head::Run(plain_len(behind(text, 1)))
    }
}
