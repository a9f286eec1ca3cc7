// A statement laid out as steps over words, and walked over.
use bits::Bits;
use design_steps::{
    Constants, Home, Layout, free_from, greatest_of, lay_statement, pool_statement,
};
use indexmap::IndexSet;
use ls_text::NoMemory;
use std::alloc::Global;
use std::collections::VecDeque;
use typed_ir::Stmt;
use word_steps::{Step, are_sound, walk};

// So many places from one on.
fn places(alloc: Global, from: u32, count: u32) -> Result<Vec<u32>, NoMemory> {
    let mut list = Vec::new(alloc);
    for at in 0..count {
        list.push(from.saturating_add(at))?;
    }
    Ok(list)
}

// Signals stand from 1 on, their next values behind them, and the statement's constants behind these.
fn layout_for(alloc: Global, st: &Stmt, values: &[Bits]) -> Result<Layout, NoMemory> {
    if values.len() > 4096 {
        return Err(NoMemory);
    }
    let count = values.len() as u32;
    let mut widths = Vec::new(alloc);
    for value in values {
        widths.push(value.width())?;
    }
    let mut pool = IndexSet::new(alloc);
    pool_statement(st, &mut pool)?;
    Ok(Layout {
        slots: places(alloc, 1, count)?,
        nexts: places(alloc, 1 + count, count)?,
        widths,
        constants: Constants {
            first: 1 + 2 * count,
            values: pool,
        },
    })
}

// The steps of a statement.
fn steps_of(alloc: Global, st: &Stmt, layout: &Layout, mark: u32) -> Result<Vec<Step>, NoMemory> {
    let mut first = Vec::new(alloc);
    let mut steps = VecDeque::new(alloc);
    lay_statement(st, layout, mark, &mut first, &mut steps)?;
    let mut list = Vec::new(alloc);
    for step in &steps {
        list.push(*step)?;
    }
    Ok(list)
}

// The words before the steps: signals and next values have the signals' values. All bits of the free words are 1, so that a step which
// reads one that none wrote shows.
fn words_before(
    alloc: Global,
    values: &[Bits],
    layout: &Layout,
    last: u32,
) -> Result<Vec<u128>, NoMemory> {
    let mut words = vec![in alloc; 0]?;
    for _copy in 0..2 {
        for value in values {
            words.push(value.value())?;
        }
    }
    words.extend_from_slice(layout.constants.values.as_slice())?;
    for _free in words.len()..=last as usize {
        words.push(u128::MAX)?;
    }
    Ok(words)
}

// The values that stand at these places; `None` where one of them doesn't fit its width.
fn values_at(
    alloc: Global,
    values: &[Bits],
    places: &[u32],
    words: &[u128],
) -> Result<Option<Vec<Bits>>, NoMemory> {
    let mut found = Vec::new(alloc);
    for (at, value) in values.iter().enumerate() {
        let Some(place) = places.get(at) else {
            return Ok(None);
        };
        let Some(word) = words.get(*place as usize) else {
            return Ok(None);
        };
        let bits = Bits::new(value.width(), *word);
        if bits.value() != *word {
            return Ok(None);
        }
        found.push(bits)?;
    }
    Ok(Some(found))
}

/// Walks over the steps of a statement; the signals have these values before. Answers what they have afterwards, or what their next values
/// have, each at its width; `None` where the steps aren't sound, or a value doesn't fit.
pub fn walked_over(
    alloc: Global,
    st: &Stmt,
    home: Home,
    values: &[Bits],
) -> Result<Option<Vec<Bits>>, NoMemory> {
    let layout = layout_for(alloc, st, values)?;
    let mark = free_from(&layout)?;
    let steps = steps_of(alloc, st, &layout, mark)?;
    let last = greatest_of(&steps, mark);
    let mut words = words_before(alloc, values, &layout, last)?;
    if !are_sound(&steps, words.len()) {
        return Ok(None);
    }
    walk(&steps, &mut words);
    match home {
        Home::Now => values_at(alloc, values, &layout.slots, &words),
        Home::Later => values_at(alloc, values, &layout.nexts, &words),
    }
}
