// What a row shows of one design, or its first fault.
use crate::design::Design;
use crate::designing::design_of;
use crate::shown::{Shown, push_counts, push_ensured, push_fault, push_keys, push_parts};
use crate::stock::Stock;
use crate::way::Way;
use ls_text::{Names, NoMemory, Refusal};
use std::alloc::Global;
use std::thread::Threads;

// What is shown where units don't stand in their tree, which is a fault of the program.
const UNFIT: &[u8] = b"units don't fit";

fn push_shown(
    out: &mut Vec<u8>,
    names: &Names,
    shown: Shown,
    design: &Design,
) -> Result<(), NoMemory> {
    match shown {
        Shown::Nothing => Ok(()),
        Shown::Counts => push_counts(out, design),
        Shown::Parts => push_parts(out, names, &design.linked.design),
        Shown::Keys => push_keys(out, design),
        Shown::Ensured => push_ensured(out, design.ensured),
    }
}

// A first fault.
fn push_refusal(out: &mut Vec<u8>, names: &Names, refusal: &Refusal) -> Result<(), NoMemory> {
    match refusal {
        Refusal::NoMemory => Err(NoMemory),
        Refusal::Fault(fault) => push_fault(out, names, fault),
    }
}

// The design of a text.
fn push_design<R: Threads + Sync>(
    rt: &R,
    alloc: Global,
    names: &mut Names,
    stock: &mut Stock,
    out: &mut Vec<u8>,
    way: Way,
    text: &[u8],
    shown: Shown,
) -> Result<(), Refusal> {
    match design_of(rt, alloc, names, stock, way, text)? {
        Some(design) => push_shown(out, names, shown, &design)?,
        None => out.extend_from_slice(UNFIT)?,
    }
    Ok(())
}

/// What is shown of the design of a text that is built with this stock, or its first fault.
pub fn push_text<R: Threads + Sync>(
    rt: &R,
    alloc: Global,
    names: &mut Names,
    stock: &mut Stock,
    out: &mut Vec<u8>,
    way: Way,
    text: &[u8],
    shown: Shown,
) -> Result<(), NoMemory> {
    match push_design(rt, alloc, names, stock, out, way, text, shown) {
        Ok(()) => Ok(()),
        Err(refusal) => push_refusal(out, names, &refusal),
    }
}

/// A text up to a byte, and behind it; all of it, and nothing, where the byte isn't there.
pub fn parted(text: &[u8], at: u8) -> (&[u8], &[u8]) {
    let end = text.iter().take_while(|byte| **byte != at).count();
    let (front, rest) = text.split_at(end);
    (front, rest.get(1..).unwrap_or(b""))
}

// A number in decimal digits; other bytes count as digits too.
fn number(digits: &[u8]) -> usize {
    let mut n = 0usize;
    for digit in digits {
        n = n
            .saturating_mul(10)
            .saturating_add(usize::from(*digit & 15));
    }
    n
}

/// The counts of a text that has the limit on its nodes and a space before it, or its first fault.
pub fn push_few<R: Threads + Sync>(
    rt: &R,
    alloc: Global,
    names: &mut Names,
    stock: &mut Stock,
    out: &mut Vec<u8>,
    text: &[u8],
) -> Result<(), NoMemory> {
    let (digits, text) = parted(text, b' ');
    let way = Way {
        most: Some(number(digits)),
        alike: false,
    };
    push_text(rt, alloc, names, stock, out, way, text, Shown::Counts)
}
