// A stretch of a file.

/// Bytes of a file: its number, the offset of the first byte, and the offset after the last.
#[derive(Clone, Copy, Debug)]
pub struct Stretch {
    pub file: u16,
    pub start: u32,
    pub end: u32,
}
