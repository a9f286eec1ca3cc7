// The ranks by which nodes are placed: names as soon as they can be, since they take no step, and the others by their positions. A group
// that stands in no circle is placed once all that its nodes wait for is, so that their steps stand side by side. Positions within it are those
// of its unit, so that all instances of a unit have one order, unless what they need has no common one.
ghost use Rattle.std.specs.Prelude.{◌≡◌, IfOk, length};

use crate::components::{Components, components_of};
use crate::dividing::{ends_of, opened_in, parted_in};
use crate::division::Division;
use crate::group_graph::GroupGraph;
use crate::groups::Groups;
use crate::leading::{lead, leaders_of};
use crate::naming::{is_named, names_of};
use crate::owning::{Belonging, belongings_of};
use crate::passing_over::graph_over;
use crate::positions::positions_of;
use crate::units::Units;
use ls_text::NoMemory;
use std::alloc::{AllocError, Global};
use typed_ir::{Flat, InstanceName, NodeId};

// How often more is taken apart at most: the own nodes of instances, then instances that as a whole stand in a circle, then the own nodes
// of these.
const DIVISIONS: u32 = 3;

// The groups of the nodes, what comes before what of them, and their components.
#[derive(Drop)]
struct Grouping {
    groups: Groups,
    between: GroupGraph,
    components: Components,
}

impl Grouping {
    fn new(
        alloc: Global,
        steps: &[Vec<usize>],
        rows: &[InstanceName],
        belongings: &[Belonging],
        division: &Division,
    ) -> Result<Grouping, AllocError> {
        let groups = Groups::new(alloc, rows, belongings, division)?;
        let between = GroupGraph::new(alloc, steps, &groups)?;
        let components = components_of(alloc, &between)?;
        Ok(Grouping {
            groups,
            between,
            components,
        })
    }

    // Takes apart what stands in a circle; whether there was more than before.
    fn divide(
        &self,
        alloc: Global,
        ends: &[usize],
        division: &mut Division,
    ) -> Result<bool, AllocError> {
        let parted = parted_in(alloc, &self.groups, &self.components, ends)?;
        if division.part(&parted) {
            return Ok(true);
        }
        let opened = opened_in(alloc, &self.groups, &self.components, ends)?;
        Ok(division.unfold(&opened))
    }
}

// The groups by which nodes are placed, and what is taken apart for them.
fn grouping_of(
    alloc: Global,
    steps: &[Vec<usize>],
    rows: &[InstanceName],
    belongings: &[Belonging],
    division: &mut Division,
) -> Result<Grouping, AllocError> {
    let ends = ends_of(alloc, rows)?;
    let mut grouping = Grouping::new(alloc, steps, rows, belongings, division)?;
    for _turn in 0..DIVISIONS {
        if !grouping.divide(alloc, &ends, division)? {
            return Ok(grouping);
        }
        grouping = Grouping::new(alloc, steps, rows, belongings, division)?;
    }
    Ok(grouping)
}

// The position of each node, where `steps` has for each those that wait for it; that is changed.
fn node_positions(
    alloc: Global,
    design: &Flat,
    steps: &mut [Vec<usize>],
) -> Result<Vec<usize>, NoMemory> {
    let rows = &design.instances.rows;
    let belongings = belongings_of(alloc, &design.nodes, &design.signals)?;
    let mut division = Division::new(alloc, rows.len())?;
    let grouping = grouping_of(alloc, steps, rows, &belongings, &mut division)?;
    let groups = &grouping.groups;
    let components = &grouping.components;
    let units = Units::new(alloc, rows, &design.signals, belongings)?;
    let likes = units.likes(alloc, groups)?;
    let mut united = grouping.between.united(alloc, &likes)?;
    let leaders = leaders_of(alloc, groups, components, &division, &units)?;
    lead(alloc, &leaders, &units, steps, &mut united)?;
    let unit_components = components_of(alloc, &united)?;
    Ok(positions_of(alloc, groups, components, &likes, &unit_components)?)
}

// The rank of a node that has this position.
fn rank_of(names: &[bool], positions: &[usize], node: usize) -> usize {
    if is_named(names, node) {
        return 0;
    }
    match positions.get(node) {
        Some(position) => position.saturating_add(1),
        None => usize::MAX,
    }
}

// The rank of each of so many nodes.
fn ranked(
    alloc: Global,
    names: &[bool],
    positions: &[usize],
    count: usize,
) -> Result<Vec<usize>, AllocError>
    ensures { IfOk result (λ ranks. length ranks.items ≡ count) }
{
    let mut ranks = Vec::with_capacity(alloc, count)?;
    for node in 0..count {
        ranks.push(rank_of(names, positions, node))?;
    }
    Ok(ranks)
}

/// The rank of each node of a design, whose graph this is. A name has the first. It takes time in proportion to nodes, instances and edges,
/// an edge as many turns as scopes lie between each of its nodes and the one that has both. Want of memory is `NoMemory`.
pub fn ranks_of(alloc: Global, design: &Flat, graph: &[Vec<NodeId>]) -> Result<Vec<usize>, NoMemory>
    ensures { IfOk result (λ ranks. length ranks.items ≡ length design.now.nodes.items) }
{
    let names = names_of(alloc, &design.nodes, &design.signals, graph)?;
    let mut steps = graph_over(alloc, graph, &names)?;
    let positions = node_positions(alloc, design, &mut steps)?;
    let ranks = ranked(alloc, &names, &positions, design.nodes.len())?;
    Ok(ranks)
}
