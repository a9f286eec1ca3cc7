// What one row is, by the reader that its table names.
use crate::scopes::within_and_behind;
use crate::sizes::{constant_of, sizing, unsigned_at, value_at, within};
use ls_text::NoMemory;
use row_tables::Reader;
use std::alloc::Global;

/// The readers of sizes.
pub struct SizeReader;

impl Reader for SizeReader {
    fn read(
        &self,
        alloc: Global,
        name: &str,
        text: &[u8],
        _want: &[u8],
    ) -> Result<Vec<u8>, NoMemory> {
        match name {
            "value" => value_at(alloc, text),
            "unsigned" => unsigned_at(alloc, text),
            "sizing" => sizing(alloc, text),
            "within" => within(alloc, text),
            "constant" => constant_of(alloc, text),
            "scope" => within_and_behind(alloc, text),
            _ => Ok(Vec::from_slice(alloc, b"no such reader")?),
        }
    }
}
