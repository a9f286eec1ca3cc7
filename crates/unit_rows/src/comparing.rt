// All tables of the folder of data.
use crate::reader::read;
use ls_text::NoMemory;
use row_tables::{Row, Table, joined};
use std::alloc::{Alloc, Global};
use std::fs::Files;
use std::io::Print;
use std::thread::Threads;
use std::{fs, io};

// What a row is read as, where it isn't what is wanted.
fn other<R: Threads + Sync>(
    rt: &R,
    alloc: Global,
    name: &str,
    table: &Table,
    row: &Row,
) -> Result<Option<Vec<u8>>, NoMemory> {
    let text = joined(alloc, &table.before.text, &row.text, &table.behind.text)?;
    let got = read(rt, alloc, name, &text)?;
    let want = joined(alloc, &table.before.want, &row.want, &table.behind.want)?;
    if got == want {
        return Ok(None);
    }
    Ok(Some(joined(alloc, &text, b"\n is read as ", &got)?))
}

// The first row that the reader of this name reads otherwise than wanted, and as what; none where there is none.
fn first_other<R: Threads + Sync>(
    rt: &R,
    alloc: Global,
    name: &str,
    table: &Table,
) -> Result<Option<Vec<u8>>, NoMemory> {
    for row in &table.rows {
        if let Some(wrong) = other(rt, alloc, name, table, row)? {
            return Ok(Some(wrong));
        }
    }
    Ok(None)
}

// How many rows a table has, and the text of the first one that isn't as its reader has to read it.
fn tried<R: Threads + Sync>(
    rt: &R,
    alloc: Global,
    name: &str,
    file: &str,
) -> Result<(usize, Option<Vec<u8>>), NoMemory> {
    let table = Table::read(alloc, file)?;
    let wrong = first_other(rt, alloc, name, &table)?;
    Ok((table.rows.len(), wrong))
}

/// Compares what is read of the rows of the folder with what has to be read, names what differs,
/// and says how many rows agree. `tables.txt` has a line `READER NAME` for each table, and NAME.txt are its rows.
pub fn compare_all<R: Threads + Sync + Files + Print + Alloc<A = Global>>(
    rt: &R,
) -> io::Result<()> {
    let alloc = rt.alloc();
    let tables = fs::read_to_string(rt, "tables.txt")?;
    let mut count = 0usize;
    for line in tables.lines() {
        let Some((word, name)) = line.split_once(' ') else {
            continue;
        };
        let file = format!(in alloc; "{name}.txt")?;
        let text = fs::read_to_string(rt, file.as_str())?;
        match tried(rt, alloc, word, text.as_str()) {
            Ok((rows, None)) => count = count.saturating_add(rows),
            Ok((_, Some(wrong))) => {
                let wrong = String::from_utf8_lossy(alloc, &wrong)?;
                println!(rt; "{name} as {word}: {wrong}")?;
            }
            Err(NoMemory) => println!(rt; "{name}: memory ran out")?,
        }
    }
    println!(rt; "{count} rows agree")
}
