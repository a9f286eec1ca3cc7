// A tree as text, while it is written.
use ls_text::{NameId, NoMemory, push_decimal};
use std::alloc::Global;

/// A text that only grows: nested brackets with a node's name first. Once memory runs out it is refused at the end, whatever else is
/// written, so that no writer has to answer.
#[derive(Drop)]
pub struct TreeText<'a> {
    // the texts of all names, by their numbers
    texts: &'a [Vec<u8>],
    bytes: Vec<u8>,
    refused: bool,
}

impl<'a> TreeText<'a> {
    /// An empty text, with the texts of all names by their numbers.
    pub fn new(alloc: Global, texts: &'a [Vec<u8>]) -> TreeText<'a> {
        TreeText {
            texts,
            bytes: Vec::new(alloc),
            refused: false,
        }
    }

    pub fn push(&mut self, text: &[u8]) {
        if self.bytes.extend_from_slice(text).is_err() {
            self.refused = true;
        }
    }

    /// A number in decimal digits.
    pub fn decimal(&mut self, number: u64) {
        if push_decimal(&mut self.bytes, number).is_err() {
            self.refused = true;
        }
    }

    /// A space, a bracket and a node's name.
    pub fn open(&mut self, node: &[u8]) {
        self.push(b" (");
        self.push(node);
    }

    pub fn close(&mut self) {
        self.push(b")");
    }

    /// A space and a text.
    pub fn word(&mut self, text: &[u8]) {
        self.push(b" ");
        self.push(text);
    }

    /// A name by its number; `?` where the table hasn't it.
    pub fn name(&mut self, id: NameId) {
        let texts = self.texts;
        match texts.get(id.0 as usize) {
            Some(text) => self.word(text.as_slice()),
            None => self.word(b"?"),
        }
    }

    /// The whole text; `NoMemory` where memory ran out while it was written.
    pub fn done(self) -> Result<Vec<u8>, NoMemory> {
        let TreeText { bytes, refused, .. } = self;
        if refused { Err(NoMemory) } else { Ok(bytes) }
    }
}
