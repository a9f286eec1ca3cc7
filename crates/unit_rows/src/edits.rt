// What a row shows of several texts, one after another.
use crate::reading::{parted, push_text};
use crate::shown::{Shown, push_ever};
use crate::stock::Stock;
use crate::way::{ALIKE, PLAIN, Way};
use ls_text::{Names, NoMemory};
use row_tables::FILE_END;
use std::alloc::Global;
use std::thread::Threads;

/// How many units of the second of two texts are built, and how many the first left; or the first fault in either.
pub fn push_second<R: Threads + Sync>(
    rt: &R,
    alloc: Global,
    names: &mut Names,
    stock: &mut Stock,
    out: &mut Vec<u8>,
    way: Way,
    text: &[u8],
) -> Result<(), NoMemory> {
    let (first, second) = parted(text, FILE_END);
    push_text(rt, alloc, names, stock, out, way, first, Shown::Nothing)?;
    if out.is_empty() {
        push_text(rt, alloc, names, stock, out, way, second, Shown::Ensured)?;
    }
    Ok(())
}

// How many units are held, and how many were ever made.
fn push_held(out: &mut Vec<u8>, stock: &Stock) -> Result<(), NoMemory> {
    push_ever(out, stock.registry.len(), stock.forge.count())
}

// One edit: how many units are built for it and how many were held, or its first fault; and what is held then.
fn push_edit<R: Threads + Sync>(
    rt: &R,
    alloc: Global,
    names: &mut Names,
    stock: &mut Stock,
    out: &mut Vec<u8>,
    way: Way,
    text: &[u8],
) -> Result<(), NoMemory> {
    if !out.is_empty() {
        out.extend_from_slice(b"; ")?;
    }
    push_text(rt, alloc, names, stock, out, way, text, Shown::Ensured)?;
    push_held(out, stock)
}

/// Edits, each a text: what each has built, or its first fault, and what is held then.
pub fn push_edits<R: Threads + Sync>(
    rt: &R,
    alloc: Global,
    names: &mut Names,
    stock: &mut Stock,
    out: &mut Vec<u8>,
    text: &[u8],
) -> Result<(), NoMemory> {
    for edit in text.split(|byte| *byte == FILE_END) {
        push_edit(rt, alloc, names, stock, out, PLAIN, edit)?;
    }
    Ok(())
}

/// Three edits, of which the second goes to a copy of what the first left: what each has built, or its first fault, and what is held where it
/// went; and at the end what the copy holds.
pub fn push_copies<R: Threads + Sync>(
    rt: &R,
    alloc: Global,
    names: &mut Names,
    stock: &mut Stock,
    out: &mut Vec<u8>,
    text: &[u8],
) -> Result<(), NoMemory> {
    let (first, rest) = parted(text, FILE_END);
    let (second, third) = parted(rest, FILE_END);
    push_edit(rt, alloc, names, stock, out, PLAIN, first)?;
    let mut other = stock.copy(alloc)?;
    push_edit(rt, alloc, names, &mut other, out, PLAIN, second)?;
    push_edit(rt, alloc, names, stock, out, PLAIN, third)?;
    out.extend_from_slice(b"; copy")?;
    push_held(out, &other)
}

/// What a text has built as an edit, again with one digest for all its keys, and once more as it was; and what is held each time.
pub fn push_redigested<R: Threads + Sync>(
    rt: &R,
    alloc: Global,
    names: &mut Names,
    stock: &mut Stock,
    out: &mut Vec<u8>,
    text: &[u8],
) -> Result<(), NoMemory> {
    push_edit(rt, alloc, names, stock, out, PLAIN, text)?;
    push_edit(rt, alloc, names, stock, out, ALIKE, text)?;
    push_edit(rt, alloc, names, stock, out, PLAIN, text)
}
