// Words to a design.
use crate::declarations::takes_declaration;
use crate::expressions::takes_expression;
use crate::made::Made;
use crate::statements::takes_statement;
use crate::word::{Word, word_of};
use comb_order::{OrderRefusal, Parts, checked_flat, linked, no_block};
use cycle_eval::Design;
use ls_text::{NameId, NoMemory, Refusal};
use std::alloc::Global;
use std::mem;
use typed_ir::{Flat, InstanceTable, Linked};

// Takes a word; false where it has no meaning where it stands.
fn takes(alloc: Global, made: &mut Made, word: &Word) -> Result<bool, NoMemory> {
    if takes_declaration(alloc, made, word)? {
        return Ok(true);
    }
    if takes_statement(alloc, made, word)? {
        return Ok(true);
    }
    takes_expression(alloc, &mut made.expressions, word)
}

// What the words of a text make; none where one has no meaning where it stands.
fn made_of(alloc: Global, text: &[u8]) -> Result<Option<Made>, NoMemory> {
    let mut made = Made::new(alloc);
    for part in text.split(|byte| *byte == b' ') {
        let word = word_of(alloc, part)?;
        if !takes(alloc, &mut made, &word)? {
            return Ok(None);
        }
    }
    Ok(Some(made))
}

// The table of the instances, or of the top alone where there are none.
fn table_of(alloc: Global, made: &mut Made) -> Result<Option<InstanceTable>, NoMemory> {
    if made.instances.is_empty() {
        return Ok(Some(InstanceTable::of_top(alloc, NameId(0))?));
    }
    let rows = mem::replace(&mut made.instances, Vec::new(alloc));
    Ok(InstanceTable::new(rows))
}

// A design without a combinational block.
#[tactic(auto, using(comb_order::proofs::Flatten::complete_of, comb_order::proofs::Flatten::first_of))]
fn flat_of(alloc: Global, parts: Parts) -> Result<Option<Flat>, NoMemory> {
    if !no_block(&parts.nodes) {
        return Ok(None);
    }
    if parts.nodes.len() >= 1_000_000 {
        return Ok(None);
    }
    checked_flat(alloc, parts)
}

// The design with an order of its nodes; none where they make a loop.
fn linked_of(alloc: Global, flat: Flat) -> Result<Option<Linked>, NoMemory> {
    match linked(alloc, flat) {
        Ok(linked) => Ok(Some(linked)),
        Err(OrderRefusal::NoMemory) => Err(NoMemory),
        Err(OrderRefusal::Loop(_circle)) => Ok(None),
    }
}

// The design that is run; none where its registers take too many words.
fn ready(alloc: Global, linked: Linked) -> Result<Option<Design>, NoMemory> {
    match Design::make(alloc, linked) {
        Ok(design) => Ok(Some(design)),
        Err(Refusal::NoMemory) => Err(NoMemory),
        Err(Refusal::Fault(_fault)) => Ok(None),
    }
}

// A design of these parts; none where they make none.
fn design_of(alloc: Global, parts: Parts) -> Result<Option<Design>, NoMemory> {
    let Some(flat) = flat_of(alloc, parts)? else {
        return Ok(None);
    };
    match linked_of(alloc, flat)? {
        Some(linked) => ready(alloc, linked),
        None => Ok(None),
    }
}

// The parts of a design, and after how many cycles its registers are read.
fn parts_of(instances: InstanceTable, made: Made) -> (Parts, Vec<u64>) {
    let parts = Parts {
        instances,
        signals: made.signals,
        registers: made.registers,
        inputs: made.inputs,
        nodes: made.nodes,
        clocked: made.clocked,
    };
    (parts, made.cycles)
}

// The parts that the words of a text make.
fn parts_in(alloc: Global, text: &[u8]) -> Result<Option<(Parts, Vec<u64>)>, NoMemory> {
    let Some(mut made) = made_of(alloc, text)? else {
        return Ok(None);
    };
    match table_of(alloc, &mut made)? {
        Some(instances) => Ok(Some(parts_of(instances, made))),
        None => Ok(None),
    }
}

/// The design that the words of a text make, and after how many cycles its registers are read; none where they make none.
pub fn design_in(alloc: Global, text: &[u8]) -> Result<Option<(Design, Vec<u64>)>, NoMemory> {
    let Some((parts, cycles)) = parts_in(alloc, text)? else {
        return Ok(None);
    };
    match design_of(alloc, parts)? {
        Some(design) => Ok(Some((design, cycles))),
        None => Ok(None),
    }
}
