// What one row's module is unrolled to.
use crate::overrides::overrides;
use crate::shown::{counts, steps};
use crate::shown_part::ShownPart;
use gen_unroll::unroll;
use ls_text::{Names, NoMemory, Refusal};
use row_tables::{Reader, texts_of, tokens_of};
use std::alloc::Global;
use typed_ir::Const;
use verilog_ast::Module;
use verilog_parse::parse;

/// The readers: `steps` of a module without overrides, `overridden` with the overrides that stand before `: `, and `counts`.
pub struct ModuleReader;

// The modules of a text; none where it is refused.
fn modules_of(
    alloc: Global,
    names: &mut Names,
    text: &[u8],
) -> Result<Option<Vec<Module>>, NoMemory> {
    let Some(tokens) = tokens_of(alloc, names, text)? else {
        return Ok(None);
    };
    match parse(alloc, names, &tokens) {
        Ok(all) => Ok(Some(all)),
        Err(Refusal::NoMemory) => Err(NoMemory),
        Err(Refusal::Fault(_fault)) => Ok(None),
    }
}

// The first module of a text, unrolled.
fn read(
    alloc: Global,
    text: &[u8],
    given: &[Option<Const>],
    shown: ShownPart,
) -> Result<Vec<u8>, NoMemory> {
    let mut out = Vec::new(alloc);
    let mut names = Names::new(alloc);
    let Some(all) = modules_of(alloc, &mut names, text)? else {
        out.extend_from_slice(b"no module")?;
        return Ok(out);
    };
    let texts = texts_of(alloc, &mut names)?;
    if let Some(first) = all.first() {
        let u = unroll(alloc, &first.body, given)?;
        match shown {
            ShownPart::Steps => steps(&mut out, &texts, &u)?,
            ShownPart::Counts => counts(&mut out, &texts, &u)?,
        }
    }
    // A fault alone begins with a space.
    Ok(Vec::from_slice(alloc, out.strip_prefix(b" ".as_slice()).unwrap_or(&out))?)
}

impl Reader for ModuleReader {
    fn read(
        &self,
        alloc: Global,
        name: &str,
        text: &[u8],
        _want: &[u8],
    ) -> Result<Vec<u8>, NoMemory> {
        match name {
            "steps" => read(alloc, text, &[], ShownPart::Steps),
            "counts" => read(alloc, text, &[], ShownPart::Counts),
            "overridden" => {
                let n = text.iter().take_while(|b| **b != b':').count();
                let (given, rest) = text.split_at(n);
                let given = overrides(alloc, given)?;
                let rest = rest.strip_prefix(b": ".as_slice()).unwrap_or(rest);
                read(alloc, rest, &given, ShownPart::Steps)
            }
            _ => Ok(Vec::from_slice(alloc, b"no such reader")?),
        }
    }
}
