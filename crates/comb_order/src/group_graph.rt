// What comes before what, of groups.
use crate::groups::Groups;
use crate::units::like_of;
use std::alloc::{AllocError, Global};

/// Which groups come after a group and which before it. One may stand there several times.
#[derive(Drop)]
pub struct GroupGraph {
    pub after: Vec<Vec<usize>>,
    pub before: Vec<Vec<usize>>,
}

/// So many empty rows.
pub fn empty_rows(alloc: Global, count: usize) -> Result<Vec<Vec<usize>>, AllocError> {
    let mut rows = Vec::with_capacity(alloc, count)?;
    for _row in 0..count {
        rows.push(Vec::new(alloc))?;
    }
    Ok(rows)
}

/// Puts a number into a row, where there is such a row.
pub fn note(rows: &mut [Vec<usize>], at: usize, number: usize) -> Result<(), AllocError> {
    if at < rows.len() {
        rows[at].push(number)?;
    }
    Ok(())
}

impl GroupGraph {
    // A graph of so many groups without edges.
    fn empty(alloc: Global, count: usize) -> Result<GroupGraph, AllocError> {
        let after = empty_rows(alloc, count)?;
        let before = empty_rows(alloc, count)?;
        Ok(GroupGraph { after, before })
    }

    /// The graph of the groups of a graph's nodes. An edge is one between groups of the innermost scope that has both nodes.
    pub fn new(
        alloc: Global,
        graph: &[Vec<usize>],
        groups: &Groups,
    ) -> Result<GroupGraph, AllocError> {
        let mut between = GroupGraph::empty(alloc, groups.count())?;
        for node in 0..graph.len() {
            for other in &graph[node] {
                if let Some((one, two)) = groups.meet(node, *other) {
                    between.add(one, two)?;
                }
            }
        }
        Ok(between)
    }

    /// One more edge, where the groups are two.
    pub fn add(&mut self, one: usize, two: usize) -> Result<(), AllocError> {
        if one != two {
            note(&mut self.after, one, two)?;
            note(&mut self.before, two, one)?;
        }
        Ok(())
    }

    /// The edges of all instances of a unit, as edges of the first one. `likes` has for each group the one that stands for it there.
    pub fn united(&self, alloc: Global, likes: &[usize]) -> Result<GroupGraph, AllocError> {
        let mut united = GroupGraph::empty(alloc, self.after.len())?;
        for one in 0..self.after.len() {
            for two in &self.after[one] {
                united.add(like_of(likes, one), like_of(likes, *two))?;
            }
        }
        Ok(united)
    }
}
