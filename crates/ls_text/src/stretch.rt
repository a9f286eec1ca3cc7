// Parts of a text by their lengths, however short the text is.
ghost use Rattle.std.specs.Prelude.{◌≡◌, take, drop, slice_index};

/// The first `n` bytes, or all where there are fewer.
pub fn front(text: &[u8], n: usize) -> &[u8]
    ensures { result.now ≡ take n text.now }
{
    if n <= text.len() { &text[..n] } else { text }
}

/// What follows the first `n` bytes.
pub fn behind(text: &[u8], n: usize) -> &[u8]
    ensures { result.now ≡ drop n text.now }
{
    if n <= text.len() {
        text.split_at(n).1
    } else {
        &[]
    }
}

/// The byte at an offset, 0 where there is none.
pub fn byte_at(text: &[u8], at: usize) -> u8
    ensures { result ≡ slice_index text.now at }
{
    if at < text.len() { text[at] } else { 0 }
}
