// A case, and conditions of each kind, laid out and walked over, with results worked out by hand.
use bits::Bits;
use design_steps::{Constants, Layout, lay_statement};
use indexmap::IndexSet;
use ls_text::NoMemory;
use std::alloc::Global;
use std::collections::VecDeque;
use std::test::Fail;
use typed_ir::{
    Arm, BinaryOperator, Comparison, Item, Lane, SignalId, Signedness, Span, Stmt, Target, Typed,
};
use word_steps::{Step, are_sound, walk};

// Signal 0 has two bits and stands at 1, signal 1 has four and stands at 2; constants stand from 5 on.
fn two_signals(alloc: Global) -> Result<Layout, NoMemory> {
    let mut values = IndexSet::new(alloc);
    for value in [1, 2, 7, 9] {
        values.insert(value)?;
    }
    Ok(Layout {
        slots: vec![in alloc; 1, 2]?,
        nexts: vec![in alloc; 3, 4]?,
        widths: vec![in alloc; 2, 4]?,
        constants: Constants { first: 5, values },
    })
}

// Signal 1 becomes 7, or 9.
fn assigned(alloc: Global, seven: bool) -> Result<Stmt, NoMemory> {
    let lane = Lane {
        shift: 0,
        span: Span {
            signal: SignalId(1),
            low: 0,
            width: 4,
        },
    };
    let value = if seven {
        Bits::new(4, 7)
    } else {
        Bits::new(4, 9)
    };
    Ok(Stmt::Assign {
        targets: vec![in alloc; Target::Fixed(lane)]?,
        value: Typed::constant(value),
    })
}

// `casez (a) 2'd1: b = 7; 2'b1?: b = 9; endcase`
fn two_arms(alloc: Global) -> Result<Stmt, NoMemory> {
    let one = Item {
        ignored: 0,
        item: Typed::constant(Bits::new(2, 1)),
    };
    let upper = Item {
        ignored: 1,
        item: Typed::constant(Bits::new(2, 2)),
    };
    let mut arms = Vec::new(alloc);
    arms.push(Arm {
        items: vec![in alloc; one]?,
        body: assigned(alloc, true)?,
    })?;
    arms.push(Arm {
        items: vec![in alloc; upper]?,
        body: assigned(alloc, false)?,
    })?;
    Ok(Stmt::Case {
        subject: Typed::name(SignalId(0), 2),
        arms,
        otherwise: Box::new(alloc, Stmt::Skip)?,
    })
}

// `if (a op 2'd2) b = 7; else b = 9;`
fn two_sides(op: Comparison, alloc: Global) -> Result<Stmt, NoMemory> {
    let a = Typed::name(SignalId(0), 2);
    let two = Typed::constant(Bits::new(2, 2));
    Ok(Stmt::If {
        condition: Typed::binary(alloc, BinaryOperator::Compare(op), a, two)?,
        consequent: Box::new(alloc, assigned(alloc, true)?)?,
        alternative: Box::new(alloc, assigned(alloc, false)?)?,
    })
}

// The steps of a statement, with places from 10 on free.
fn laid(st: &Stmt, alloc: Global) -> Result<Vec<Step>, NoMemory> {
    let layout = two_signals(alloc)?;
    let mut first = Vec::new(alloc);
    let mut steps = VecDeque::new(alloc);
    lay_statement(st, &layout, 10, &mut first, &mut steps)?;
    let mut list = Vec::new(alloc);
    for step in &steps {
        list.push(*step)?;
    }
    Ok(list)
}

#[test]
fn a_casez_by_hand(rt: HostRuntime) -> Result<(), Fail> {
    let st = two_arms(rt.alloc())?;
    let steps = laid(&st, rt.alloc())?;
    for (x, y) in [(0, 5), (1, 7), (2, 9), (3, 9)] {
        let mut words = [0, x, 5, 0, 0, 1, 2, 7, 9, 0, 0, 0, 0, 0];
        assert!(rt; are_sound(&steps, words.len()));
        walk(&steps, &mut words);
        assert_eq!(rt; words[2], y);
    }
    Ok(())
}

// A comparison of a with 2, how many steps the `if` takes, and what b is behind it where a is 1, 2 and 3.
#[derive(Drop)]
struct Row {
    op: Comparison,
    count: usize,
    values: [u128; 3],
}

fn gives(op: Comparison, count: usize, values: [u128; 3]) -> Row {
    Row { op, count, values }
}

// One step compares and skips; beside it there are the two assignments, and the step over the second one. As signed values 2 and 3 are
// -2 and -1.
#[test]
fn conditions_by_hand(rt: HostRuntime) -> Result<(), Fail> {
    for row in [
        gives(Comparison::Equal, 4, [9, 7, 9]),
        gives(Comparison::Unequal, 4, [7, 9, 7]),
        gives(Comparison::Less(Signedness::Unsigned), 4, [7, 9, 9]),
        gives(Comparison::Greater(Signedness::Unsigned), 4, [9, 9, 7]),
        gives(Comparison::AtMost(Signedness::Unsigned), 4, [7, 7, 9]),
        gives(Comparison::AtLeast(Signedness::Unsigned), 4, [9, 7, 7]),
        gives(Comparison::Less(Signedness::Signed), 4, [9, 9, 9]),
        gives(Comparison::Greater(Signedness::Signed), 4, [7, 9, 7]),
        gives(Comparison::AtMost(Signedness::Signed), 4, [9, 7, 9]),
        gives(Comparison::AtLeast(Signedness::Signed), 4, [7, 7, 7]),
    ] {
        let st = two_sides(row.op, rt.alloc())?;
        let steps = laid(&st, rt.alloc())?;
        assert_eq!(rt; steps.len(), row.count);
        for (x, y) in [(1, row.values[0]), (2, row.values[1]), (3, row.values[2])] {
            let mut words = [0, x, 5, 0, 0, 1, 2, 7, 9, 0, 0, 0, 0, 0];
            assert!(rt; are_sound(&steps, words.len()));
            walk(&steps, &mut words);
            assert_eq!(rt; words[2], y);
        }
    }
    Ok(())
}
