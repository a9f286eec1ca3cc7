// A depth-first search of a graph along its edges, as of groups.
use std::alloc::{AllocError, Global};

// What a search along the edges does next.
#[derive(Clone, Copy, Debug, PartialEq, Eq)]
enum Step {
    Enter(usize),
    Leave(usize),
}

/// The turns that a search takes at most: one for each edge, and two for each group.
pub fn most_turns(rows: &[Vec<usize>]) -> usize {
    let mut turns: usize = 0;
    for row in rows {
        turns = turns.saturating_add(row.len().saturating_add(2));
    }
    turns
}

// Enters a group that wasn't entered before: what comes after it is to be entered, and then it is left.
fn enter(
    rows: &[Vec<usize>],
    group: usize,
    entered: &mut [bool],
    steps: &mut Vec<Step>,
) -> Result<(), AllocError> {
    if group < rows.len() && group < entered.len() && !entered[group] {
        entered[group] = true;
        steps.push(Step::Leave(group))?;
        for next in &rows[group] {
            steps.push(Step::Enter(*next))?;
        }
    }
    Ok(())
}

/// The groups as a search leaves them: one behind what comes after it, where they stand in no circle. The greatest is entered first.
pub fn leaving_order(alloc: Global, rows: &[Vec<usize>]) -> Result<Vec<usize>, AllocError> {
    let mut entered = vec![in alloc; false; rows.len()]?;
    let mut left = Vec::with_capacity(alloc, rows.len())?;
    let mut steps = Vec::with_capacity(alloc, rows.len())?;
    for group in 0..rows.len() {
        steps.push(Step::Enter(group))?;
    }
    for _turn in 0..most_turns(rows) {
        match steps.pop() {
            Some(Step::Enter(group)) => enter(rows, group, &mut entered, &mut steps)?,
            Some(Step::Leave(group)) => left.push(group)?,
            None => break,
        }
    }
    Ok(left)
}
