// Rows of a table.

/// A text, and what has to be read of it.
#[derive(Drop)]
pub struct Row {
    pub text: Vec<u8>,
    pub want: Vec<u8>,
}
