// What one row's text is elaborated to.
use crate::shown::{Shown, push_fault, push_tree};
use elaborate::elaborate;
use ls_text::{Names, NoMemory, Refusal, push_decimal};
use row_tables::{Reader, tokens_of};
use std::alloc::Global;
use verilog_ast::Module;
use verilog_parse::parse;

/// The readers: `first`, `ok` or the first fault, where the top is `top` and its clock `clk`; `count`, the number of instances; `tree`,
/// the instances one after another.
pub struct DesignReader;

// What the modules are elaborated to.
fn push_design(
    alloc: Global,
    out: &mut Vec<u8>,
    names: &mut Names,
    all: &[Module],
    shown: Shown,
) -> Result<(), NoMemory> {
    let top = names.intern(b"top")?;
    let clock = names.intern(b"clk")?;
    match elaborate(alloc, names, all, top, clock) {
        Ok(tree) => match shown {
            Shown::First => Ok(out.extend_from_slice(b"ok")?),
            Shown::Count => push_decimal(out, tree.instances.len() as u64),
            Shown::Tree => push_tree(out, names, &tree),
        },
        Err(Refusal::NoMemory) => Err(NoMemory),
        Err(Refusal::Fault(fault)) => push_fault(alloc, out, names, &fault),
    }
}

fn read(alloc: Global, text: &[u8], shown: Shown) -> Result<Vec<u8>, NoMemory> {
    let mut out = Vec::new(alloc);
    let mut names = Names::new(alloc);
    let Some(tokens) = tokens_of(alloc, &mut names, text)? else {
        out.extend_from_slice(b"no tokens")?;
        return Ok(out);
    };
    match parse(alloc, &mut names, &tokens) {
        Ok(all) => push_design(alloc, &mut out, &mut names, &all, shown)?,
        Err(Refusal::NoMemory) => return Err(NoMemory),
        Err(Refusal::Fault(_fault)) => out.extend_from_slice(b"no tree")?,
    }
    Ok(out)
}

impl Reader for DesignReader {
    fn read(
        &self,
        alloc: Global,
        name: &str,
        text: &[u8],
        _want: &[u8],
    ) -> Result<Vec<u8>, NoMemory> {
        match name {
            "first" => read(alloc, text, Shown::First),
            "count" => read(alloc, text, Shown::Count),
            "tree" => read(alloc, text, Shown::Tree),
            _ => Ok(Vec::from_slice(alloc, b"no such reader")?),
        }
    }
}
