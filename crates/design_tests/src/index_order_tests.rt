// An assignment whose second part's index its first part writes, laid out and walked over, with results worked out by hand.
use bits::Bits;
use comb_order::is_legal;
use design_steps::{Constants, Layout, lay_statement};
use indexmap::IndexSet;
use ls_text::NoMemory;
use std::alloc::Global;
use std::collections::VecDeque;
use std::test::Fail;
use typed_ir::{Lane, Reach, SignalId, Span, Stmt, Target, Typed};
use word_steps::{Step, are_sound, walk};

// Signal 0 has two bits and stands at 1, signal 1 has four and stands at 2; constants stand from 5 on.
fn two_signals(alloc: Global) -> Result<Layout, NoMemory> {
    let mut values = IndexSet::new(alloc);
    for value in [0, 5] {
        values.insert(value)?;
    }
    Ok(Layout {
        slots: vec![in alloc; 1, 2]?,
        nexts: vec![in alloc; 3, 4]?,
        widths: vec![in alloc; 2, 4]?,
        constants: Constants { first: 5, values },
    })
}

// reg [1:0] i; reg [3:0] a; {i, a[i]} = 5; where i is signal 0 and a is signal 1.
fn index_and_element(alloc: Global) -> Result<Stmt, NoMemory> {
    let whole = Span {
        signal: SignalId(0),
        low: 0,
        width: 2,
    };
    let first = Lane {
        shift: 1,
        span: whole,
    };
    let reach = Reach {
        shift: 0,
        signal: SignalId(1),
        total: 4,
        width: 1,
        below: 0,
        signed: false,
    };
    let index = Typed::name(SignalId(0), 2);
    Ok(Stmt::Assign {
        targets: vec![in alloc; Target::Fixed(first), Target::Moving { reach, index }]?,
        value: Typed::constant(Bits::new(3, 5)),
    })
}

// The steps of a statement, with places from 8 on free.
fn laid(st: &Stmt, alloc: Global) -> Result<Vec<Step>, NoMemory> {
    let layout = two_signals(alloc)?;
    let mut first = Vec::new(alloc);
    let mut steps = VecDeque::new(alloc);
    lay_statement(st, &layout, 8, &mut first, &mut steps)?;
    let mut list = Vec::new(alloc);
    for step in &steps {
        list.push(*step)?;
    }
    Ok(list)
}

// The index is read after i was written: 5 is 10 1 in binary. All bits of the free words are 1 before.
#[test]
fn an_index_is_read_after_the_part_left_of_it(rt: HostRuntime) -> Result<(), Fail> {
    let st = index_and_element(rt.alloc())?;
    let before = vec![in rt.alloc(); Bits::new(2, 0), Bits::new(4, 0)]?;
    assert!(rt; is_legal(&st, &before));
    let steps = laid(&st, rt.alloc())?;
    let free = u128::MAX;
    let mut words = [0, 0, 0, 0, 0, 0, 5, 0, free, free, free, free, free, free];
    assert!(rt; are_sound(&steps, words.len()));
    walk(&steps, &mut words);
    assert_eq!(rt; words[1], 2);
    assert_eq!(rt; words[2], 4);
    Ok(())
}
