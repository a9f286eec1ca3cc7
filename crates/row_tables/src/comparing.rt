// All tables of a folder of data.
use crate::property::Property;
use crate::reader::{Reader, first_other};
use crate::table::Table;
use ls_text::NoMemory;
use std::alloc::{Alloc, Global};
use std::fs::Files;
use std::io::Print;
use std::{fs, io};

// How many rows a table has, and the text of the first one that isn't as its reader has to read it.
fn tried<R: Reader, P: Property>(
    alloc: Global,
    reader: &R,
    property: &P,
    name: &str,
    file: &str,
) -> Result<(usize, Option<Vec<u8>>), NoMemory> {
    let table = Table::read(alloc, file)?;
    let wrong = if property.is_of(name) {
        property.first_wrong(alloc, name, &table)?
    } else {
        first_other(alloc, reader, name, &table)?
    };
    Ok((table.rows.len(), wrong))
}

/// Compares what is read of the rows of a folder with what has to be read, names what differs, and says how many rows agree.
/// `tables.txt` has a line `READER NAME` for each table, and NAME.txt are its rows. The name of a property may stand in the place of
/// a reader's.
pub fn compare_all<R: Reader, P: Property>(
    rt: &(impl Files + Print + Alloc<A = Global>),
    reader: &R,
    property: &P,
) -> io::Result<()> {
    let alloc = rt.alloc();
    let tables = fs::read_to_string(rt, "tables.txt")?;
    let mut count = 0usize;
    for line in tables.lines() {
        let Some((word, name)) = line.split_once(' ') else {
            continue;
        };
        let file = format!(in alloc; "{name}.txt")?;
        let text = fs::read_to_string(rt, file.as_str())?;
        match tried(alloc, reader, property, word, text.as_str()) {
            Ok((rows, None)) => count = count.saturating_add(rows),
            Ok((_, Some(wrong))) => {
                let wrong = String::from_utf8_lossy(alloc, &wrong)?;
                println!(rt; "{name} as {word}: {wrong}")?;
            }
            Err(NoMemory) => println!(rt; "{name}: memory ran out")?,
        }
    }
    println!(rt; "{count} rows agree")
}
