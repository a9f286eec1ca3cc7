// What one row is, by the reader that its table names.
use crate::blocks::after_item;
use ls_text::NoMemory;
use row_tables::Reader;
use std::alloc::Global;

/// The reader of statements.
pub struct StatementReader;

impl Reader for StatementReader {
    fn read(
        &self,
        alloc: Global,
        name: &str,
        text: &[u8],
        _want: &[u8],
    ) -> Result<Vec<u8>, NoMemory> {
        match name {
            "item" => after_item(alloc, text),
            _ => Ok(Vec::from_slice(alloc, b"no such reader")?),
        }
    }
}
