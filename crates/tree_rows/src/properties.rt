// What is said of a whole table.
use crate::trees::tree;
use ls_text::{NoMemory, push_decimal};
use row_tables::{Property, Row, Table, joined};
use std::alloc::Global;

// The level of an operator, in one or two digits, and its name in a tree.
fn level_and_name(want: &[u8]) -> (&[u8], &[u8]) {
    for at in 0..want.len() {
        if want[at] == b' ' {
            return (&want[..at], &want[at + 1..]);
        }
    }
    (want, want)
}

// Whether the first of two levels is the lower one: the shorter number, or the lower of two digits.
fn is_lower(first: &[u8], second: &[u8]) -> bool {
    first.len() < second.len() || (first.len() == second.len() && first < second)
}

// The tree of two operators between three operands: what binds tighter is inside, and the first where both bind alike.
fn pair_tree(alloc: Global, first: &Row, second: &Row) -> Result<Vec<u8>, NoMemory> {
    let (level, name) = level_and_name(&first.want);
    let (other_level, other_name) = level_and_name(&second.want);
    let mut out = Vec::from_slice(alloc, b"(module m (assign (= x (")?;
    if is_lower(level, other_level) {
        out.extend_from_slice(name)?;
        out.extend_from_slice(b" a (")?;
        out.extend_from_slice(other_name)?;
        out.extend_from_slice(b" b c)")?;
    } else {
        out.extend_from_slice(other_name)?;
        out.extend_from_slice(b" (")?;
        out.extend_from_slice(name)?;
        out.extend_from_slice(b" a b) c")?;
    }
    out.extend_from_slice(b"))))")?;
    Ok(out)
}

// The text of the first two operators that bind otherwise than by their levels; none where there are none.
fn first_unlike(alloc: Global, table: &Table) -> Result<Option<Vec<u8>>, NoMemory> {
    for first in &table.rows {
        for second in &table.rows {
            let front = joined(alloc, b"module m; assign x = a ", &first.text, b" b ")?;
            let text = joined(alloc, &front, &second.text, b" c; endmodule")?;
            let want = pair_tree(alloc, first, second)?;
            let got = tree(alloc, &text)?;
            if got.as_slice() != want.as_slice() {
                return Ok(Some(text));
            }
        }
    }
    Ok(None)
}

// Whether a text of one line is refused with 15 behind its last byte.
fn ends_too_early(alloc: Global, text: &[u8]) -> Result<bool, NoMemory> {
    let mut column = Vec::new(alloc);
    push_decimal(&mut column, (text.len() as u64).saturating_add(1))?;
    let want = joined(alloc, b"15 1 ", &column, b" -")?;
    let got = tree(alloc, text)?;
    Ok(got.as_slice() == want.as_slice())
}

// Whether no token has this byte behind its first one.
fn ends_a_token(byte: u8) -> bool {
    matches!(
        byte,
        b' ' | b'(' | b')' | b'[' | b']' | b'{' | b'}' | b',' | b';'
    )
}

// The first front of a row of which something is read otherwise than as a text that ends too early, where it is cut before a
// blank, a bracket, a comma or a semicolon and isn't a whole text; none where there is none.
fn first_uncut(alloc: Global, table: &Table) -> Result<Option<Vec<u8>>, NoMemory> {
    for row in &table.rows {
        let mut cut = Vec::from_slice(alloc, &table.before.text)?;
        for byte in &row.text {
            if ends_a_token(*byte)
                && !cut.ends_with(b"endmodule")
                && !ends_too_early(alloc, &cut)?
            {
                return Ok(Some(cut));
            }
            cut.push(*byte)?;
        }
    }
    Ok(None)
}

/// What is said of each two operators of a table, and of its rows cut short.
pub struct TreeProperty;

impl Property for TreeProperty {
    fn is_of(&self, name: &str) -> bool {
        matches!(name, "pairs" | "cut_short")
    }

    fn first_wrong(
        &self,
        alloc: Global,
        name: &str,
        table: &Table,
    ) -> Result<Option<Vec<u8>>, NoMemory> {
        if name == "pairs" {
            first_unlike(alloc, table)
        } else {
            first_uncut(alloc, table)
        }
    }
}
