// Where an instance stands in a circle, steps outside may lead from one of its own nodes to another. Of each unit the first such instance leads:
// its own nodes are put into an order in which its steps may come, with what its unit's other instances need where that may be too, and the order
// of the unit follows that, unless another instance needs an opposite one. Names are among these nodes; where they come doesn't matter.
use crate::components::Components;
use crate::division::Division;
use crate::group_graph::{GroupGraph, note};
use crate::groups::Groups;
use crate::leaving::leaving_order;
use crate::units::Units;
use std::alloc::{AllocError, Global};

// Whether the own nodes of an instance stand in a circle, or stood in one.
fn is_in_circle(
    instance: usize,
    groups: &Groups,
    components: &Components,
    division: &Division,
) -> bool {
    let is_apart = match division.apart.get(instance) {
        Some(apart) => *apart,
        None => false,
    };
    is_apart || components.is_circle(groups.own(instance))
}

/// Whether each instance leads its unit.
pub fn leaders_of(
    alloc: Global,
    groups: &Groups,
    components: &Components,
    division: &Division,
    units: &Units,
) -> Result<Vec<bool>, AllocError> {
    let mut led = vec![in alloc; false; groups.instances()]?;
    let mut leaders = Vec::with_capacity(alloc, groups.instances())?;
    for instance in 0..groups.instances() {
        let unit = units.first(instance);
        let mut leads = is_in_circle(instance, groups, components, division);
        if unit < led.len() {
            leads = leads && !led[unit];
            led[unit] = led[unit] || leads;
        }
        leaders.push(leads)?;
    }
    Ok(leaders)
}

// The instance that a node is an own one of, where that leads.
fn leader_of(leaders: &[bool], units: &Units, node: usize) -> Option<usize> {
    let instance = units.owner(node)?;
    match leaders.get(instance) {
        Some(true) => Some(instance),
        _ => None,
    }
}

// Adds to what an instance's own nodes wait for what those of its unit's other instances do.
fn add_united(
    instance: usize,
    units: &Units,
    united: &GroupGraph,
    steps: &mut [Vec<usize>],
) -> Result<(), AllocError> {
    let first = units.first(instance);
    for node in units.own(instance) {
        if let Some(row) = united.after.get(units.seat(*node, first)) {
            for next in row {
                if units.owner(*next) == Some(first) {
                    note(steps, *node, units.seat(*next, instance))?;
                }
            }
        }
    }
    Ok(())
}

/// Adds to the edges of units the order of the own nodes of instances that lead, as edges from each to the next. `steps` has for each node
/// those that wait for it, and is changed.
pub fn lead(
    alloc: Global,
    leaders: &[bool],
    units: &Units,
    steps: &mut [Vec<usize>],
    united: &mut GroupGraph,
) -> Result<(), AllocError> {
    for instance in 0..leaders.len() {
        if leaders[instance] {
            add_united(instance, units, united, steps)?;
        }
    }
    // Of each instance the last of its own nodes so far.
    let mut last = vec![in alloc; None; leaders.len()]?;
    let left = leaving_order(alloc, steps)?;
    for turn in 0..left.len() {
        let node = left[left.len() - 1 - turn];
        if let Some(instance) = leader_of(leaders, units, node) {
            if instance < last.len() {
                let this = units.seat(node, units.first(instance));
                if let Some(earlier) = last[instance] {
                    united.add(earlier, this)?;
                }
                last[instance] = Some(this);
            }
        }
    }
    Ok(())
}
