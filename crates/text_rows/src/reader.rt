// What one text is read as, by the reader that a table names.
use crate::tokens::{counts, kinds, lexed, literal, pieces, places_of_tokens, preprocessed, spans};
use ls_text::NoMemory;
use row_tables::Reader;
use std::alloc::Global;

/// The readers of the preprocessor and the lexer.
pub struct TextReader;

impl Reader for TextReader {
    fn read(
        &self,
        alloc: Global,
        name: &str,
        text: &[u8],
        _want: &[u8],
    ) -> Result<Vec<u8>, NoMemory> {
        match name {
            "preprocessed" => preprocessed(alloc, text),
            "pieces" => pieces(alloc, text),
            "spans" => spans(alloc, text),
            "lexed" => lexed(alloc, text),
            "kinds" => kinds(alloc, text),
            "literal" => literal(alloc, text),
            "at" => places_of_tokens(alloc, text),
            "count" => counts(alloc, text),
            _ => Ok(Vec::from_slice(alloc, b"no such reader")?),
        }
    }
}
