// What comes of a script.

/// The lines that answered it, and how often the shelf answered.
#[derive(Drop)]
pub struct Played {
    pub lines: Vec<u8>,
    pub answers: usize,
}
