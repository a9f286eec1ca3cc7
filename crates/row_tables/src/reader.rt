// What rows are read as.
use crate::table::Table;
use ls_text::NoMemory;
use std::alloc::Global;

/// What reads a text.
pub trait Reader {
    /// What the reader of this name makes of a text. A want may begin with numbers that tell how to read.
    fn read(
        &self,
        alloc: Global,
        name: &str,
        text: &[u8],
        want: &[u8],
    ) -> Result<Vec<u8>, NoMemory>;
}

/// Three texts, one after another.
pub fn joined(alloc: Global, head: &[u8], text: &[u8], tail: &[u8]) -> Result<Vec<u8>, NoMemory> {
    let mut whole = Vec::from_slice(alloc, head)?;
    whole.extend_from_slice(text)?;
    whole.extend_from_slice(tail)?;
    Ok(whole)
}

// Whether a text is what is wanted; a want that ends with two dots says how it begins.
fn agrees(got: &[u8], want: &[u8]) -> bool {
    match want.strip_suffix(b"..".as_slice()) {
        Some(front) => got.starts_with(front),
        None => got == want,
    }
}

/// The first row that the reader of this name reads otherwise, and as what; none where there is none.
pub fn first_other<R: Reader>(
    alloc: Global,
    reader: &R,
    name: &str,
    table: &Table,
) -> Result<Option<Vec<u8>>, NoMemory> {
    for row in &table.rows {
        let text = joined(alloc, &table.before.text, &row.text, &table.behind.text)?;
        let want = joined(alloc, &table.before.want, &row.want, &table.behind.want)?;
        let got = reader.read(alloc, name, &text, &want)?;
        if !agrees(&got, &want) {
            return Ok(Some(joined(alloc, &text, b"\n is read as ", &got)?));
        }
    }
    Ok(None)
}
