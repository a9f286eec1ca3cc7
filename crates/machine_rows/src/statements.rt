// The words of statements, each of which takes expressions and statements that stand before it.
//
//     skip               the null statement
//     later:I:W ..       {I, ..} <= E; where W bits are all of signal I, from left to right
//     place:I:T:W        I[F +: W] <= E; where the signal has T bits, and F stands before E
//     if                 the condition and two statements: the second one is done where the condition is 0
//     arm:D              the item and the statement of an arm; D are its don't-care digits
//     case               the expression, the arms, and what is done where none matches
//     begin              one after another, all statements before it
use crate::made::Made;
use crate::word::Word;
use ls_text::NoMemory;
use std::alloc::Global;
use std::mem;
use typed_ir::{Arm, Item, Lane, Reach, SignalId, Span, Stmt, Target};

// How many bits the signals of a word have.
fn width_of(word: &Word) -> u8 {
    let mut all = 0u8;
    for k in 0..word.len() / 2 {
        all = all.saturating_add(word.width(k * 2 + 1));
    }
    all
}

/// All bits of the signals of a word, from left to right.
pub fn lanes_of(alloc: Global, word: &Word) -> Result<Vec<Lane>, NoMemory> {
    let mut lanes = Vec::new(alloc);
    let mut shift = width_of(word);
    for k in 0..word.len() / 2 {
        let width = word.width(k * 2 + 1);
        shift = shift.saturating_sub(width);
        let span = Span {
            signal: SignalId(word.long(k * 2)),
            low: 0,
            width,
        };
        lanes.push(Lane { shift, span })?;
    }
    Ok(lanes)
}

fn fixed(alloc: Global, word: &Word) -> Result<Vec<Target>, NoMemory> {
    let mut targets = Vec::new(alloc);
    for lane in &lanes_of(alloc, word)? {
        targets.push(Target::Fixed(*lane))?;
    }
    Ok(targets)
}

fn later(alloc: Global, made: &mut Made, word: &Word) -> Result<Option<Stmt>, NoMemory> {
    let targets = fixed(alloc, word)?;
    match made.expressions.pop() {
        Some(value) => Ok(Some(Stmt::Later { targets, value })),
        None => Ok(None),
    }
}

// A select at run time, as the one target.
fn moving(alloc: Global, made: &mut Made, word: &Word) -> Result<Vec<Target>, NoMemory> {
    let mut targets = Vec::new(alloc);
    let reach = Reach {
        shift: 0,
        signal: SignalId(word.long(0)),
        total: word.width(1),
        width: word.width(2),
        below: 0,
        signed: false,
    };
    if let Some(index) = made.expressions.pop() {
        targets.push(Target::Moving { reach, index })?;
    }
    Ok(targets)
}

fn place(alloc: Global, made: &mut Made, word: &Word) -> Result<Option<Stmt>, NoMemory> {
    match made.expressions.pop() {
        Some(value) => {
            let targets = moving(alloc, made, word)?;
            Ok(Some(Stmt::Later { targets, value }))
        }
        None => Ok(None),
    }
}

// The last statement, in a box.
fn boxed(alloc: Global, made: &mut Made) -> Result<Option<Box<Stmt>>, NoMemory> {
    match made.statements.pop() {
        Some(statement) => Ok(Some(Box::new(alloc, statement)?)),
        None => Ok(None),
    }
}

fn branch(alloc: Global, made: &mut Made) -> Result<Option<Stmt>, NoMemory> {
    let Some(alternative) = boxed(alloc, made)? else {
        return Ok(None);
    };
    let Some(consequent) = boxed(alloc, made)? else {
        return Ok(None);
    };
    match made.expressions.pop() {
        Some(condition) => Ok(Some(Stmt::If {
            condition,
            consequent,
            alternative,
        })),
        None => Ok(None),
    }
}

fn case(alloc: Global, made: &mut Made) -> Result<Option<Stmt>, NoMemory> {
    let Some(otherwise) = boxed(alloc, made)? else {
        return Ok(None);
    };
    match made.expressions.pop() {
        Some(subject) => Ok(Some(Stmt::Case {
            subject,
            arms: mem::replace(&mut made.arms, Vec::new(alloc)),
            otherwise,
        })),
        None => Ok(None),
    }
}

/// All statements that no word has taken yet, as one.
pub fn sequence(alloc: Global, made: &mut Made) -> Stmt {
    Stmt::Sequence(mem::replace(&mut made.statements, Vec::new(alloc)))
}

// What a word makes; none where it makes no statement.
fn statement(alloc: Global, made: &mut Made, word: &Word) -> Result<Option<Stmt>, NoMemory> {
    match word.name {
        b"skip" => Ok(Some(Stmt::Skip)),
        b"later" => later(alloc, made, word),
        b"place" => place(alloc, made, word),
        b"if" => branch(alloc, made),
        b"case" => case(alloc, made),
        b"begin" => Ok(Some(sequence(alloc, made))),
        _ => Ok(None),
    }
}

/// Takes a word of a statement; false where it is none, or what it takes is missing.
pub fn takes_statement(alloc: Global, made: &mut Made, word: &Word) -> Result<bool, NoMemory> {
    match statement(alloc, made, word)? {
        Some(statement) => {
            made.statements.push(statement)?;
            Ok(true)
        }
        None => Ok(false),
    }
}

// The last expression as the items of an arm.
fn items(alloc: Global, made: &mut Made, word: &Word) -> Result<Vec<Item>, NoMemory> {
    let mut items = Vec::new(alloc);
    if let Some(item) = made.expressions.pop() {
        items.push(Item {
            ignored: word.number(0),
            item,
        })?;
    }
    Ok(items)
}

/// Takes the word of an arm; false where there is no statement.
pub fn takes_arm(alloc: Global, made: &mut Made, word: &Word) -> Result<bool, NoMemory> {
    let items = items(alloc, made, word)?;
    match made.statements.pop() {
        Some(body) => {
            made.arms.push(Arm { items, body })?;
            Ok(true)
        }
        None => Ok(false),
    }
}
