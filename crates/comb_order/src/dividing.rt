// What of a design's instances is taken apart, by the circles in which their groups stand.
ghost use Rattle.std.specs.Prelude.{◌≡◌, IfOk, length};

use crate::components::Components;
use crate::groups::Groups;
use std::alloc::{AllocError, Global};
use typed_ir::InstanceName;

// An instance ends no sooner than this.
fn reach(ends: &mut [usize], instance: usize, end: usize)
    ensures { length ends.new ≡ length ends.old }
{
    if instance < ends.len() && ends[instance] < end {
        ends[instance] = end;
    }
}

/// For each instance the number behind the last one that stands in it, at any depth, where instances are listed depth first.
pub fn ends_of(alloc: Global, rows: &[InstanceName]) -> Result<Vec<usize>, AllocError>
    ensures { IfOk result (λ ends. length ends.items ≡ length rows.now) }
{
    let mut ends = vec![in alloc; 0usize; rows.len()]?;
    let mut left = rows.len();
    while 0 < left {
        left -= 1;
        reach(&mut ends, left, left + 1);
        if let Some(parent) = rows[left].parent {
            let end = ends[left];
            reach(&mut ends, parent.index(), end);
        }
    }
    Ok(ends)
}

// Puts a number at the place of a component, where there is one.
fn put(least: &mut [usize], component: Option<usize>, number: usize) {
    if let Some(component) = component {
        if component < least.len() {
            least[component] = number;
        }
    }
}

// The number at the place of a component.
fn number_at(least: &[usize], component: Option<usize>) -> usize {
    match component {
        Some(component) => match least.get(component) {
            Some(number) => *number,
            None => usize::MAX,
        },
        None => usize::MAX,
    }
}

/// Whether the own nodes of each instance stand in a circle with what stands in it, so that they can't stand side by side while that does.
pub fn parted_in(
    alloc: Global,
    groups: &Groups,
    components: &Components,
    ends: &[usize],
) -> Result<Vec<bool>, AllocError> {
    let mut parted = vec![in alloc; false; ends.len()]?;
    // Of each component the least instance behind those that are left.
    let mut least = vec![in alloc; usize::MAX; groups.count()]?;
    for turn in 0..ends.len() {
        let instance = ends.len() - 1 - turn;
        let own = components.of(groups.own(instance));
        if instance < parted.len() {
            parted[instance] = number_at(&least, own) < ends[instance];
        }
        put(&mut least, own, instance);
        put(&mut least, components.of(groups.whole(instance)), instance);
    }
    Ok(parted)
}

/// Whether each instance stands in another one, or is one, that as a whole stands in a circle.
pub fn opened_in(
    alloc: Global,
    groups: &Groups,
    components: &Components,
    ends: &[usize],
) -> Result<Vec<bool>, AllocError> {
    let mut opened = Vec::with_capacity(alloc, ends.len())?;
    // Behind the last instance that stands in one that is opened.
    let mut end = 0usize;
    for instance in 0..ends.len() {
        if components.is_circle(groups.whole(instance)) {
            end = end.max(ends[instance]);
        }
        opened.push(instance < end)?;
    }
    Ok(opened)
}
