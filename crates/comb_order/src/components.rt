// The strongly connected components of a graph of groups, each behind those from which edges come to it. Two depth-first searches find
// them: the first goes along the edges (`leaving`), and the second against them, from what the first left last.
use crate::group_graph::{GroupGraph, empty_rows, note};
use crate::joining::Joining;
use crate::leaving::{leaving_order, most_turns};
use std::alloc::{AllocError, Global};

/// The component of each group.
#[derive(Drop)]
pub struct Components {
    of: Vec<Option<usize>>,
    // How many groups each has.
    sizes: Vec<usize>,
}

impl Components {
    /// The component of a group, none where there is no such group. An edge between two components goes from the less to the greater.
    pub fn of(&self, group: usize) -> Option<usize> {
        *self.of.get(group)?
    }

    /// Whether a group isn't the only one of its component.
    pub fn is_circle(&self, group: usize) -> bool {
        match self.of(group) {
            Some(component) => match self.sizes.get(component) {
                Some(size) => 1 < *size,
                None => false,
            },
            None => false,
        }
    }

    /// The groups of each component, the least first.
    pub fn members(&self, alloc: Global) -> Result<Vec<Vec<usize>>, AllocError> {
        let mut members = empty_rows(alloc, self.sizes.len())?;
        for group in 0..self.of.len() {
            if let Some(component) = self.of[group] {
                note(&mut members, component, group)?;
            }
        }
        Ok(members)
    }

    // One more group joins a component, a new one where none is given: which one.
    fn grow(&mut self, component: Option<usize>) -> Result<usize, AllocError> {
        match component {
            Some(component) => {
                if component < self.sizes.len() {
                    self.sizes[component] = self.sizes[component].saturating_add(1);
                }
                Ok(component)
            }
            None => {
                let component = self.sizes.len();
                self.sizes.push(1)?;
                Ok(component)
            }
        }
    }

    // A group that has no component joins one; what comes before it is to join the same one, where it has none yet.
    fn join(
        &mut self,
        rows: &[Vec<usize>],
        joining: Joining,
        next: &mut Vec<Joining>,
    ) -> Result<(), AllocError> {
        let group = joining.group;
        if group < rows.len() && self.of(group).is_none() {
            let component = self.grow(joining.component)?;
            if group < self.of.len() {
                self.of[group] = Some(component);
            }
            for before in &rows[group] {
                next.push(Joining {
                    group: *before,
                    component: Some(component),
                })?;
            }
        }
        Ok(())
    }
}

/// The components of a graph. It takes time in proportion to groups and edges.
pub fn components_of(alloc: Global, graph: &GroupGraph) -> Result<Components, AllocError> {
    let mut components = Components {
        of: vec![in alloc; None; graph.before.len()]?,
        sizes: Vec::new(alloc),
    };
    let mut next = Vec::with_capacity(alloc, graph.after.len())?;
    for group in &leaving_order(alloc, &graph.after)? {
        next.push(Joining {
            group: *group,
            component: None,
        })?;
    }
    for _turn in 0..most_turns(&graph.before) {
        match next.pop() {
            Some(joining) => components.join(&graph.before, joining, &mut next)?,
            None => break,
        }
    }
    Ok(components)
}
