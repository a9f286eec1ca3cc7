// Bytes that a line of a table can't have, or that would be many.
//
// `\n`, `\r`, `\t` and `\p` are the newline, the carriage return, the tab and the form feed; `\s` is a space, `\e` nothing, `\\` a
// backslash. `\[N TEXT\]` is N times TEXT, in which `\#` is the number of the time, from 0, and `\+` the one after it. `\f` goes on
// to the next file, and `\@` is where a row stands in what is around it.
use ls_text::{NoMemory, push_decimal};
use std::alloc::Global;

/// What parts two files of a row: the file separator of ASCII.
pub const FILE_END: u8 = 0x1c;

// What an escape stands for; one that isn't known stands for itself.
fn push_escape(out: &mut Vec<u8>, escape: u8, turn: u64) -> Result<(), NoMemory> {
    match escape {
        b'n' => out.push(b'\n')?,
        b'r' => out.push(b'\r')?,
        b't' => out.push(b'\t')?,
        b'p' => out.push(0x0c)?,
        b's' => out.push(b' ')?,
        b'e' => {}
        b'f' => out.push(FILE_END)?,
        b'#' => push_decimal(out, turn)?,
        b'+' => push_decimal(out, turn.saturating_add(1))?,
        other => out.push(other)?,
    }
    Ok(())
}

// A text without repeats.
fn push_plain(out: &mut Vec<u8>, text: &str, turn: u64) -> Result<(), NoMemory> {
    let mut escaped = false;
    for byte in text.as_bytes() {
        if escaped {
            push_escape(out, *byte, turn)?;
            escaped = false;
        } else if *byte == b'\\' {
            escaped = true;
        } else {
            out.push(*byte)?;
        }
    }
    Ok(())
}

/// A number in decimal digits; other bytes count as digits too.
pub fn number(text: &str) -> u64 {
    let mut n = 0u64;
    for byte in text.as_bytes() {
        n = n.saturating_mul(10).saturating_add(u64::from(*byte & 15));
    }
    n
}

/// The bytes that a line stands for.
pub fn unescaped(alloc: Global, line: &str) -> Result<Vec<u8>, NoMemory> {
    let mut out = Vec::new(alloc);
    for part in line.split("\\]") {
        let Some((before, repeat)) = part.split_once("\\[") else {
            push_plain(&mut out, part, 0)?;
            continue;
        };
        push_plain(&mut out, before, 0)?;
        let Some((times, text)) = repeat.split_once(' ') else {
            continue;
        };
        for turn in 0..number(times) {
            push_plain(&mut out, text, turn)?;
        }
    }
    Ok(out)
}
