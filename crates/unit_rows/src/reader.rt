// What one row's text is read as.
use crate::edits::{push_copies, push_edits, push_redigested, push_second};
use crate::reading::{push_few, push_text};
use crate::shown::Shown;
use crate::stock::Stock;
use crate::way::{ALIKE, PLAIN};
use ls_text::{Names, NoMemory};
use module_registry::{digest, hex_digest};
use std::alloc::Global;
use std::thread::Threads;

fn push_digest(alloc: Global, out: &mut Vec<u8>, text: &[u8]) -> Result<(), NoMemory> {
    let hex = hex_digest(alloc, &digest(text))?;
    out.extend_from_slice(hex.as_bytes())?;
    Ok(())
}

// What is shown of one text.
fn push_one<R: Threads + Sync>(
    rt: &R,
    alloc: Global,
    names: &mut Names,
    stock: &mut Stock,
    out: &mut Vec<u8>,
    text: &[u8],
    shown: Shown,
) -> Result<(), NoMemory> {
    push_text(rt, alloc, names, stock, out, PLAIN, text, shown)
}

// What the reader of this name makes of a text.
fn push_read<R: Threads + Sync>(
    rt: &R,
    alloc: Global,
    names: &mut Names,
    stock: &mut Stock,
    out: &mut Vec<u8>,
    name: &str,
    text: &[u8],
) -> Result<(), NoMemory> {
    match name {
        "first" => push_one(rt, alloc, names, stock, out, text, Shown::Counts),
        "few" => push_few(rt, alloc, names, stock, out, text),
        "parts" => push_one(rt, alloc, names, stock, out, text, Shown::Parts),
        "keys" => push_one(rt, alloc, names, stock, out, text, Shown::Keys),
        "again" => push_second(rt, alloc, names, stock, out, PLAIN, text),
        "alike" => push_second(rt, alloc, names, stock, out, ALIKE, text),
        "edits" => push_edits(rt, alloc, names, stock, out, text),
        "redigested" => push_redigested(rt, alloc, names, stock, out, text),
        "copies" => push_copies(rt, alloc, names, stock, out, text),
        "digest" => push_digest(alloc, out, text),
        _ => Ok(out.extend_from_slice(b"no such reader")?),
    }
}

/// What the reader of this name makes of a text. The readers: `first`, the counts of a design or
/// its first fault; `few`, the same with at most so many nodes as stands before the text; `parts`, its nodes and registers; `keys`, the texts
/// of its keys; `again`, how many keys of the second of two texts are new, and `alike`, the same where all keys have one digest; `edits`,
/// what each of several texts has built and what is held then; `redigested`, the same of one text, with other digests in between; `copies`,
/// of three texts, of which the second goes to a copy; `digest`, the digest of a text.
pub fn read<R: Threads + Sync>(
    rt: &R,
    alloc: Global,
    name: &str,
    text: &[u8],
) -> Result<Vec<u8>, NoMemory> {
    let mut names = Names::new(alloc);
    let mut stock = Stock::new(alloc);
    let mut out = Vec::new(alloc);
    push_read(rt, alloc, &mut names, &mut stock, &mut out, name, text)?;
    Ok(out)
}
