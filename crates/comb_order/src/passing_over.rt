// The graph of the nodes that aren't names. A name takes no step, so what reads it waits for what drives the signal that it names; and
// where no node drives that, as with a register or an input, for nothing.
use crate::naming::is_named;
use std::alloc::{AllocError, Global};
use typed_ir::NodeId;

// How many edges a graph has.
fn edges_in(graph: &[Vec<NodeId>]) -> usize {
    let mut edges: usize = 0;
    for row in graph {
        edges = edges.saturating_add(row.len());
    }
    edges
}

// Those that wait for a node directly, or for names of what it drives. At most one node comes before a name, so behind a node that isn't one
// the names make a tree, which no circle of names is part of, and each edge has one turn at most.
fn row_over(
    alloc: Global,
    graph: &[Vec<NodeId>],
    names: &[bool],
    from: &[NodeId],
    turns: usize,
) -> Result<Vec<usize>, AllocError> {
    let mut row = Vec::with_capacity(alloc, from.len())?;
    let mut next = Vec::with_capacity(alloc, from.len())?;
    next.extend_from_slice(from)?;
    for _turn in 0..turns {
        match next.pop() {
            Some(node) => {
                if !is_named(names, node.index()) {
                    row.push(node.index())?;
                } else if let Some(further) = graph.get(node.index()) {
                    next.extend_from_slice(further)?;
                }
            }
            None => break,
        }
    }
    Ok(row)
}

/// The graph of the nodes that aren't names: an edge where one waits for another directly or by names alone. A name has no edge. There are no
/// more edges than in the whole graph, and it takes time in proportion to those.
pub fn graph_over(
    alloc: Global,
    graph: &[Vec<NodeId>],
    names: &[bool],
) -> Result<Vec<Vec<usize>>, AllocError> {
    let turns = edges_in(graph);
    let mut rows = Vec::with_capacity(alloc, graph.len())?;
    for node in 0..graph.len() {
        let from = if is_named(names, node) {
            &[]
        } else {
            graph[node].as_slice()
        };
        rows.push(row_over(alloc, graph, names, from, turns)?)?;
    }
    Ok(rows)
}
