// What the grammar makes of a text, as a text: its trees or its fault, the spelling of its modules, the places of its parts.
use crate::tree_text::TreeText;
use crate::written::expression;
use crate::written_items::module;
use ls_text::{Names, NoMemory, Place, Refusal, behind, push_decimal};
use row_tables::{fault_text, texts_of, tokens_of};
use std::alloc::Global;
use verilog_ast::{Expr, GenerateItem, Item, Module, PlainItem};
use verilog_expr::parse_expr;
use verilog_parse::parse;

// What follows the first byte of a text, which is the space before its first word.
fn behind_space(alloc: Global, text: &[u8]) -> Result<Vec<u8>, NoMemory> {
    Ok(Vec::from_slice(alloc, behind(text, 1))?)
}

// The trees of modules, each behind a space.
fn modules(alloc: Global, texts: &[Vec<u8>], all: &[Module]) -> Result<Vec<u8>, NoMemory> {
    let mut out = TreeText::new(alloc, texts);
    for m in all {
        module(&mut out, &m.body);
    }
    out.done()
}

// ` CODE LINE COL NAMES`
fn refused(alloc: Global, texts: &[Vec<u8>], refusal: Refusal) -> Result<Vec<u8>, NoMemory> {
    match refusal {
        Refusal::NoMemory => Err(NoMemory),
        Refusal::Fault(fault) => {
            let mut out = Vec::new(alloc);
            fault_text(&mut out, texts, &fault)?;
            Ok(out)
        }
    }
}

/// What `parse` makes of a text: each module's tree, or `CODE LINE COL NAMES`.
pub fn tree(alloc: Global, text: &[u8]) -> Result<Vec<u8>, NoMemory> {
    let mut names = Names::new(alloc);
    let Some(tokens) = tokens_of(alloc, &mut names, text)? else {
        return Ok(Vec::new(alloc));
    };
    let parsed = parse(alloc, &mut names, &tokens);
    let texts = texts_of(alloc, &mut names)?;
    let out = match parsed {
        Ok(all) => modules(alloc, &texts, &all)?,
        Err(refusal) => refused(alloc, &texts, refusal)?,
    };
    behind_space(alloc, &out)
}

/// The spellings of a text's modules, with spaces between them; nothing where it is refused.
pub fn spelled(alloc: Global, text: &[u8]) -> Result<Vec<u8>, NoMemory> {
    let mut names = Names::new(alloc);
    let mut out = Vec::new(alloc);
    let Some(tokens) = tokens_of(alloc, &mut names, text)? else {
        return Ok(out);
    };
    match parse(alloc, &mut names, &tokens) {
        Ok(all) => {
            for m in &all {
                out.push(b' ')?;
                out.extend_from_slice(m.spelling.bytes())?;
            }
        }
        Err(Refusal::NoMemory) => return Err(NoMemory),
        Err(Refusal::Fault(_fault)) => {}
    }
    behind_space(alloc, &out)
}

// The tree of an expression, and ` @` with the number of the next token.
fn read_up_to(
    alloc: Global,
    texts: &[Vec<u8>],
    expr: &Expr,
    next: usize,
) -> Result<Vec<u8>, NoMemory> {
    let mut out = TreeText::new(alloc, texts);
    expression(&mut out, expr);
    out.push(b" @");
    out.decimal(next as u64);
    out.done()
}

// What `parse_expr` makes of a text from one of its tokens on: the tree and ` @` with the number of the next token,
// or ` CODE LINE COL NAMES`.
fn read_from(alloc: Global, text: &[u8], from: usize, weight: u32) -> Result<Vec<u8>, NoMemory> {
    let mut names = Names::new(alloc);
    let Some(tokens) = tokens_of(alloc, &mut names, text)? else {
        return Ok(Vec::new(alloc));
    };
    if from >= tokens.len() {
        return Ok(Vec::new(alloc));
    }
    let parsed = parse_expr(alloc, &tokens, from, weight);
    let texts = texts_of(alloc, &mut names)?;
    match parsed {
        Ok(x) => read_up_to(alloc, &texts, &x.expr, x.next),
        Err(refusal) => refused(alloc, &texts, refusal),
    }
}

// The first two numbers of a text, which a space parts and a space ends.
fn two_numbers(text: &[u8]) -> (usize, u32) {
    let mut numbers = (0usize, 0u32);
    let mut spaces = 0u32;
    for byte in text {
        let digit = *byte & 15;
        match (*byte, spaces) {
            (b' ', _) => spaces = spaces.saturating_add(1),
            (_, 0) => numbers.0 = numbers
                .0
                .saturating_mul(10)
                .saturating_add(usize::from(digit)),
            (_, 1) => numbers.1 = numbers
                .1
                .saturating_mul(10)
                .saturating_add(u32::from(digit)),
            _ => {}
        }
    }
    numbers
}

/// What `parse_expr` makes of a text from the token and with the weight that the want begins with; behind these two.
pub fn part(alloc: Global, text: &[u8], want: &[u8]) -> Result<Vec<u8>, NoMemory> {
    let (from, weight) = two_numbers(want);
    let mut out = Vec::new(alloc);
    push_decimal(&mut out, from as u64)?;
    out.push(b' ')?;
    push_decimal(&mut out, u64::from(weight))?;
    out.extend_from_slice(&read_from(alloc, text, from, weight)?)?;
    Ok(out)
}

fn push_place(out: &mut Vec<u8>, place: Place) -> Result<(), NoMemory> {
    out.push(b' ')?;
    push_decimal(out, u64::from(place.line))?;
    out.push(b' ')?;
    push_decimal(out, u64::from(place.col))
}

// The line and the column of an item, and of the targets, expressions or statement in it.
fn item_places(out: &mut Vec<u8>, item: &Item) -> Result<(), NoMemory> {
    push_place(out, item.place())?;
    match item {
        Item::Item(GenerateItem::Plain(PlainItem::Assign(_, all))) => {
            for a in all.as_slice() {
                push_place(out, a.target.place())?;
                push_place(out, a.value.get().place())?;
            }
        }
        Item::Item(GenerateItem::Plain(PlainItem::Combinational(_, body))) => push_place(
            out,
            body.get().place(),
        )?,
        Item::Item(GenerateItem::Plain(PlainItem::Clocked(_, _, body))) => push_place(
            out,
            body.get().place(),
        )?,
        _ => {}
    }
    Ok(())
}

/// The lines and columns of the items of a text's modules; nothing where the text is refused.
pub fn places(alloc: Global, text: &[u8]) -> Result<Vec<u8>, NoMemory> {
    let mut names = Names::new(alloc);
    let mut out = Vec::new(alloc);
    let Some(tokens) = tokens_of(alloc, &mut names, text)? else {
        return Ok(out);
    };
    match parse(alloc, &mut names, &tokens) {
        Ok(all) => {
            for m in &all {
                for item in m.body.items.as_slice() {
                    item_places(&mut out, item)?;
                }
            }
        }
        Err(Refusal::NoMemory) => return Err(NoMemory),
        Err(Refusal::Fault(_fault)) => {}
    }
    behind_space(alloc, &out)
}
