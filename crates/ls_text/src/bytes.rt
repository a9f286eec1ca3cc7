// Classes of bytes, and runs of them at the front of a text.
ghost use Rattle.std.specs.Prelude.{◌≡◌, ◌==◌, ◌+◌, ◌≤◌, not, length, false, IfSome};
ghost use Rattle.std.specs.List.{prefix_len, suffix_len};
ghost use Rattle.ls_text.specs.Bytes.{is_letter, is_digit, is_word_byte, is_file_byte, is_blank, is_space, through_pair};

/// Whether a byte may begin a word: a letter or `_`.
pub fn is_letter(byte: u8) -> bool
    ensures { result ≡ is_letter byte }
{
    matches!(byte, b'a'..=b'z' | b'A'..=b'Z' | b'_')
}

/// Whether a byte is a decimal digit.
pub fn is_digit(byte: u8) -> bool
    ensures { result ≡ is_digit byte }
{
    matches!(byte, b'0'..=b'9')
}

/// Whether a byte may follow in a word: a letter, a digit, `_` or `$`.
pub fn is_word_byte(byte: u8) -> bool
    ensures { result ≡ is_word_byte byte }
{
    is_letter(byte) || is_digit(byte) || byte == b'$'
}

/// Whether a byte may stand in a file's name: a letter, a digit, `_`, `-`, `.` or `/`.
pub fn is_file_byte(byte: u8) -> bool
    ensures { result ≡ is_file_byte byte }
{
    is_letter(byte) || is_digit(byte) || matches!(byte, b'-' | b'.' | b'/')
}

// Whether a byte is white space within a line.
fn is_blank(byte: u8) -> bool
    ensures { result ≡ is_blank byte }
{
    matches!(byte, b' ' | b'\t' | b'\x0c' | b'\r')
}

/// Whether a byte is white space.
pub fn is_space(byte: u8) -> bool
    ensures { result ≡ is_space byte }
{
    byte == b'\n' || is_blank(byte)
}

/// How many bytes of white space stand at the front.
pub fn space_len(text: &[u8]) -> usize
    ensures value { result ≡ prefix_len is_space text.now }
    ensures within { result ≤ length text.now }
{
    text.iter().take_while(|b| is_space(**b)).count()
}

/// How many bytes of white space stand at the end.
pub fn trailing_space_len(text: &[u8]) -> usize
    ensures value { result ≡ suffix_len is_space text.now }
    ensures within { result ≤ length text.now }
{
    text.iter().rev().take_while(|b| is_space(**b)).count()
}

/// How many bytes of white space stand at the front, within the line.
pub fn blank_len(text: &[u8]) -> usize
    ensures value { result ≡ prefix_len is_blank text.now }
    ensures within { result ≤ length text.now }
{
    text.iter().take_while(|b| is_blank(**b)).count()
}

/// How many bytes at the front may stand in a word.
pub fn word_len(text: &[u8]) -> usize
    ensures value { result ≡ prefix_len is_word_byte text.now }
    ensures within { result ≤ length text.now }
{
    text.iter().take_while(|b| is_word_byte(**b)).count()
}

/// How many bytes stand before the first newline.
pub fn line_len(text: &[u8]) -> usize
    ensures value { result ≡ prefix_len (λ b. not (b == 10)) text.now }
    ensures within { result ≤ length text.now }
{
    text.iter().take_while(|b| **b != b'\n').count()
}

/// How many bytes end with the first pair of these two bytes.
pub fn through_pair(first: u8, second: u8, text: &[u8]) -> Option<usize>
    ensures value { result ≡ through_pair first second false 0 text.now }
    ensures within { IfSome result (λ n. n ≤ length text.now) }
{
    let mut seen = false;
    let mut n = 0;
    for byte in text {
        n += 1;
        if seen && *byte == second {
            return Some(n);
        }
        seen = *byte == first;
    }
    None
}
