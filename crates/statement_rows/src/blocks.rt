// What the rules of sizes make of blocks and of continuous assignments, as texts.
use crate::outcome::Outcome;
use crate::stepping::walked_over;
use crate::variables::declare_variables;
use bits::Bits;
use comb_order::is_legal;
use design_steps::Home;
use ls_text::{Names, NoMemory, Refusal};
use row_operands::{operands, push_refusal, push_value};
use row_tables::tokens_of;
use statement_rules::{Drive, size_assign, size_stmt};
use std::alloc::Global;
use typed_ir::{Env, Stmt, Target};
use verilog_ast::{GenerateItem, Item, PlainItem};
use verilog_parse::parse;
use width_rules::{Scope, Writer};

// The values from a place on, in hexadecimal with spaces between them.
fn push_values(out: &mut Vec<u8>, values: &[Bits], from: usize) -> Result<(), NoMemory> {
    for (at, value) in values.iter().enumerate() {
        if at >= from {
            if !out.is_empty() {
                out.push(b' ')?;
            }
            push_value(out, *value)?;
        }
    }
    Ok(())
}

// Walks over the steps of a statement where its widths agree with those of the signals.
fn executed(alloc: Global, st: &Stmt, home: Home, env: &mut Env) -> Result<Outcome, NoMemory> {
    if !is_legal(st, &env.values) {
        return Ok(Outcome::Illegal);
    }
    match walked_over(alloc, st, home, &env.values)? {
        Some(values) => {
            env.values = values;
            Ok(Outcome::Executed)
        }
        None => Ok(Outcome::Unsound),
    }
}

// Continuous assignments as blocking ones.
fn assigned(alloc: Global, drives: Vec<Drive>) -> Result<Stmt, NoMemory> {
    let mut list = Vec::new(alloc);
    for drive in drives {
        let Drive { lanes, value } = drive;
        let mut targets = Vec::new(alloc);
        for lane in lanes {
            targets.push(Target::Fixed(lane))?;
        }
        list.push(Stmt::Assign { targets, value })?;
    }
    Ok(Stmt::Sequence(list))
}

// Sizes an item, and walks over its steps: what a clocked block writes are next values.
fn execute(alloc: Global, scope: &Scope, env: &mut Env, item: &Item) -> Result<Outcome, Refusal> {
    match item {
        Item::Item(GenerateItem::Plain(PlainItem::Assign(_, all))) => {
            let drives = size_assign(alloc, scope, all.as_slice())?;
            let st = assigned(alloc, drives)?;
            Ok(executed(alloc, &st, Home::Now, env)?)
        }
        Item::Item(GenerateItem::Plain(PlainItem::Combinational(_, body))) => {
            let st = size_stmt(alloc, scope, Writer::Combinational, body.get())?;
            Ok(executed(alloc, &st, Home::Now, env)?)
        }
        Item::Item(GenerateItem::Plain(PlainItem::Clocked(_, _, body))) => {
            let st = size_stmt(alloc, scope, Writer::Clocked, body.get())?;
            Ok(executed(alloc, &st, Home::Later, env)?)
        }
        _ => Ok(Outcome::OtherItem),
    }
}

/// The values of the variables after each block or continuous assignment of a module, or its first fault; `illegal` where its widths
/// don't agree with those of the signals, `unsound` where its steps may not be walked over or leave a value that doesn't fit.
pub fn after_item(alloc: Global, text: &[u8]) -> Result<Vec<u8>, NoMemory> {
    let mut out = Vec::new(alloc);
    let mut names = Names::new(alloc);
    let Some(tokens) = tokens_of(alloc, &mut names, text)? else {
        return Ok(out);
    };
    let Ok(all) = parse(alloc, &mut names, &tokens) else {
        return Ok(out);
    };
    let (mut scope, mut env) = operands(alloc, &mut names)?;
    let first = declare_variables(&mut names, &mut scope, &mut env)?;
    for m in &all {
        for item in m.body.items.as_slice() {
            match execute(alloc, &scope, &mut env, item) {
                Ok(Outcome::Executed) => push_values(&mut out, &env.values, first)?,
                Ok(Outcome::Illegal) => out.extend_from_slice(b"illegal")?,
                Ok(Outcome::Unsound) => out.extend_from_slice(b"unsound")?,
                Ok(Outcome::OtherItem) => {}
                Err(refusal) => push_refusal(alloc, &mut out, &mut names, refusal)?,
            }
        }
    }
    Ok(out)
}
