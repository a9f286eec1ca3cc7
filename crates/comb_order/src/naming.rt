// Nodes that only give a signal another name: they take no step in a cycle. (`naming` of design_steps has the same test of a node, with a
// clause; a name of what several nodes drive takes no step there either, and counts as a node here.)
use std::alloc::{AllocError, Global};
use typed_ir::{Form, Lane, Node, NodeId, Signal, SignalId};

// Whether a signal is there with this width, in bits.
fn has_width(signal: SignalId, width: u8, signals: &[Signal]) -> bool {
    match signals.get(signal.index()) {
        Some(signal) => signal.width == width,
        None => false,
    }
}

// Whether so many bits of a value go to a whole signal.
fn is_whole(lane: &Lane, width: u8, signals: &[Signal]) -> bool {
    let span = lane.span;
    lane.shift == 0
        && span.low == 0
        && span.width == width
        && has_width(span.signal, width, signals)
}

// Whether a node drives a whole signal with another one of its width.
fn is_name(node: &Node, signals: &[Signal]) -> bool {
    match node {
        Node::Drive { lanes, value, .. } => match &value.form {
            Form::Name { signal, width } => {
                lanes.len() == 1
                    && is_whole(&lanes[0], *width, signals)
                    && has_width(*signal, *width, signals)
            }
            _ => false,
        },
        Node::Block { .. } => false,
    }
}

// Marks the nodes of a row: one node comes before each of them. A node that was marked before has several before it, and is no name.
fn mark_row(row: &[NodeId], marks: &mut [bool], names: &mut [bool]) {
    for node in row {
        let place = node.index();
        if place < marks.len() && place < names.len() {
            if marks[place] {
                names[place] = false;
            }
            marks[place] = true;
        }
    }
}

/// Whether each node only gives another name to a signal that at most one node drives. A name of a signal that several nodes drive counts as
/// a node like others: so there are no more edges over names than edges.
pub fn names_of(
    alloc: Global,
    nodes: &[Node],
    signals: &[Signal],
    graph: &[Vec<NodeId>],
) -> Result<Vec<bool>, AllocError> {
    let mut names = Vec::with_capacity(alloc, nodes.len())?;
    for node in nodes {
        names.push(is_name(node, signals))?;
    }
    let mut marks = vec![in alloc; false; nodes.len()]?;
    for row in graph {
        mark_row(row, &mut marks, &mut names);
    }
    Ok(names)
}

/// Whether a node is one of these names.
pub fn is_named(names: &[bool], node: usize) -> bool {
    match names.get(node) {
        Some(name) => *name,
        None => false,
    }
}
