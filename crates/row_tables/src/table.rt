// Tables of rows.
use crate::escapes::unescaped;
use crate::row::Row;
use ls_text::NoMemory;
use std::alloc::Global;

/// Rows, and what stands before and behind each text and each want.
///
/// A row is a line with the text and, four spaces further in, a line with what has to be read of it. The first row says by `\@`
/// where the others stand. Lines that begin with `\--` and empty lines don't count.
#[derive(Drop)]
pub struct Table {
    pub before: Row,
    pub behind: Row,
    pub rows: Vec<Row>,
}

// What stands before `\@`, and behind it.
fn halves(line: &str) -> (&str, &str) {
    match line.split_once("\\@") {
        Some(halves) => halves,
        None => (line, ""),
    }
}

// The row of two lines.
fn row(alloc: Global, text: &str, want: &str) -> Result<Row, NoMemory> {
    Ok(Row {
        text: unescaped(alloc, text)?,
        want: unescaped(alloc, want)?,
    })
}

impl Table {
    /// The table of a file's text.
    pub fn read(alloc: Global, file: &str) -> Result<Table, NoMemory> {
        let mut table = Table {
            before: row(alloc, "", "")?,
            behind: row(alloc, "", "")?,
            rows: Vec::new(alloc),
        };
        let mut begun = false;
        let mut text = "";
        for line in file.lines() {
            if line.is_empty() || line.starts_with("\\--") {
                continue;
            }
            let Some(want) = line.strip_prefix("    ") else {
                text = line;
                continue;
            };
            if begun {
                table.rows.push(row(alloc, text, want)?)?;
            } else {
                let (text_before, text_behind) = halves(text);
                let (want_before, want_behind) = halves(want);
                table.before = row(alloc, text_before, want_before)?;
                table.behind = row(alloc, text_behind, want_behind)?;
                begun = true;
            }
        }
        Ok(table)
    }
}
