// The positions of groups: those of a scope by the components of their unit's edges, and where these are one by the components of their own; and
// where a group is a scope, its groups in its place.
use crate::components::Components;
use crate::group_graph::{empty_rows, note};
use crate::groups::Groups;
use crate::units::like_of;
use std::alloc::{AllocError, Global};

// The groups in an order of the components of their units' edges, and of one such by the components of their own.
fn sorted(
    alloc: Global,
    groups: &Groups,
    components: &Components,
    likes: &[usize],
    united: &Components,
) -> Result<Vec<Vec<usize>>, AllocError> {
    let mut sorted = empty_rows(alloc, groups.count())?;
    for members in &components.members(alloc)? {
        for group in members {
            if let Some(component) = united.of(like_of(likes, *group)) {
                note(&mut sorted, component, *group)?;
            }
        }
    }
    Ok(sorted)
}

// Of each scope the groups that stand in it, in that order.
fn rows_within(
    alloc: Global,
    groups: &Groups,
    components: &Components,
    likes: &[usize],
    united: &Components,
) -> Result<Vec<Vec<usize>>, AllocError> {
    let mut within = empty_rows(alloc, groups.scope_count())?;
    for row in &sorted(alloc, groups, components, likes, united)? {
        for group in row {
            if let Some(scope) = groups.scope(*group) {
                note(&mut within, scope, *group)?;
            }
        }
    }
    Ok(within)
}

// Puts the groups of a scope onto a stack, the first on top.
fn stack_up(within: &[Vec<usize>], scope: usize, stack: &mut Vec<usize>) -> Result<(), AllocError> {
    if let Some(row) = within.get(scope) {
        for turn in 0..row.len() {
            stack.push(row[row.len() - 1 - turn])?;
        }
    }
    Ok(())
}

/// The position of each node. `likes` has for each group the one that stands for it in the first instance of its unit, and `united` are the
/// components of the units' edges.
pub fn positions_of(
    alloc: Global,
    groups: &Groups,
    components: &Components,
    likes: &[usize],
    united: &Components,
) -> Result<Vec<usize>, AllocError> {
    let within = rows_within(alloc, groups, components, likes, united)?;
    let mut positions = vec![in alloc; usize::MAX; groups.own(0)]?;
    let mut stack = Vec::with_capacity(alloc, groups.count())?;
    stack_up(&within, 0, &mut stack)?;
    // Each group is taken from the stack once.
    for turn in 0..groups.count() {
        if let Some(group) = stack.pop() {
            match groups.inside(group) {
                Some(scope) => stack_up(&within, scope, &mut stack)?,
                None => {
                    if group < positions.len() {
                        positions[group] = turn;
                    }
                }
            }
        }
    }
    Ok(positions)
}
