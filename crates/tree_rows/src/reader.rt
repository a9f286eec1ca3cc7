// What one text is read as, by the reader that a table names.
use crate::trees::{part, places, spelled, tree};
use ls_text::NoMemory;
use row_tables::Reader;
use std::alloc::Global;

/// The readers of the parser.
pub struct TreeReader;

impl Reader for TreeReader {
    fn read(
        &self,
        alloc: Global,
        name: &str,
        text: &[u8],
        want: &[u8],
    ) -> Result<Vec<u8>, NoMemory> {
        match name {
            "tree" => tree(alloc, text),
            "spelling" => spelled(alloc, text),
            "place" => places(alloc, text),
            "part" => part(alloc, text, want),
            _ => Ok(Vec::from_slice(alloc, b"no such reader")?),
        }
    }
}
