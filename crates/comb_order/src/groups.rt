// Nodes in groups. A node is one, the own nodes of an instance are one (`Belonging`), and so is an instance with all that stands in it, among the
// groups of the one above. Own nodes stand in the group of these, and among the instance's other groups where they are apart (`Division`).
// Groups are counted over the nodes, then the instances by their own nodes, then the whole instances. What groups stand in is a scope: scopes
// are counted over the instances, and then over these by their own nodes.
use crate::division::Division;
use crate::owning::Belonging;
use crate::standing::Standing;
use std::alloc::{AllocError, Global};
use typed_ir::{InstanceId, InstanceName};

/// The groups of a design's nodes.
#[derive(Drop)]
pub struct Groups {
    // Of each node the scope that it stands in.
    of: Vec<usize>,
    // Of each instance the one among whose groups that of its own nodes stands: itself, where it isn't open, else the nearest above that isn't.
    scopes: Vec<usize>,
    // Of each instance the one among whose groups it stands as a whole: none, where it is open, and of the top.
    above: Vec<Option<usize>>,
}

// Whether an instance is of these.
fn is_of(flags: &[bool], instance: usize) -> bool {
    match flags.get(instance) {
        Some(flag) => *flag,
        None => false,
    }
}

// The instance among whose groups those of another one stand, by such a list.
fn scope_of(scopes: &[usize], instance: InstanceId) -> usize {
    match scopes.get(instance.index()) {
        Some(scope) => *scope,
        None => 0,
    }
}

// For each instance the one among whose groups that of its own nodes stands: itself, where it isn't open, else the nearest above that isn't.
fn scopes_of(
    alloc: Global,
    rows: &[InstanceName],
    division: &Division,
) -> Result<Vec<usize>, AllocError> {
    let mut scopes = Vec::with_capacity(alloc, rows.len())?;
    for place in 0..rows.len() {
        let scope = match rows[place].parent {
            Some(parent) => {
                if is_of(&division.open, place) {
                    scope_of(&scopes, parent)
                } else {
                    place
                }
            }
            None => place,
        };
        scopes.push(scope)?;
    }
    Ok(scopes)
}

// For each instance the one among whose groups it stands as a whole, if any.
fn above_of(
    alloc: Global,
    rows: &[InstanceName],
    division: &Division,
    scopes: &[usize],
) -> Result<Vec<Option<usize>>, AllocError> {
    let mut above = Vec::with_capacity(alloc, rows.len())?;
    for place in 0..rows.len() {
        let scope = match rows[place].parent {
            Some(parent) => {
                if is_of(&division.open, place) {
                    None
                } else {
                    Some(scope_of(scopes, parent))
                }
            }
            None => None,
        };
        above.push(scope)?;
    }
    Ok(above)
}

impl Groups {
    /// The groups of nodes that belong so, by a division.
    pub fn new(
        alloc: Global,
        rows: &[InstanceName],
        belongings: &[Belonging],
        division: &Division,
    ) -> Result<Groups, AllocError> {
        let scopes = scopes_of(alloc, rows, division)?;
        let above = above_of(alloc, rows, division, &scopes)?;
        let mut of = Vec::with_capacity(alloc, belongings.len())?;
        for belonging in belongings {
            let instance = belonging.instance.index();
            let is_one = belonging.is_own && !is_of(&division.apart, instance);
            of.push(if is_one {
                rows.len().saturating_add(instance)
            } else {
                scope_of(&scopes, belonging.instance)
            })?;
        }
        Ok(Groups { of, scopes, above })
    }

    /// How many instances there are.
    pub fn instances(&self) -> usize {
        self.scopes.len()
    }

    /// How many scopes there are.
    pub fn scope_count(&self) -> usize {
        self.instances().saturating_mul(2)
    }

    /// How many groups there are.
    pub fn count(&self) -> usize {
        self.whole(self.instances())
    }

    /// The group of an instance's own nodes.
    pub fn own(&self, instance: usize) -> usize {
        self.of.len().saturating_add(instance)
    }

    /// The group of an instance with all that stands in it.
    pub fn whole(&self, instance: usize) -> usize {
        self.own(self.instances()).saturating_add(instance)
    }

    /// The scope that a group is, where it isn't a node.
    pub fn inside(&self, group: usize) -> Option<usize> {
        match group.checked_sub(self.whole(0)) {
            Some(instance) => Some(instance),
            None => Some(
                group
                    .checked_sub(self.own(0))?
                    .saturating_add(self.instances()),
            ),
        }
    }

    // The group that a scope is, and where that stands.
    fn around(&self, scope: usize) -> Option<Standing> {
        match scope.checked_sub(self.instances()) {
            Some(instance) => Some(Standing {
                group: self.own(instance),
                scope: self.scopes.get(instance).copied()?,
            }),
            None => Some(Standing {
                group: self.whole(scope),
                scope: self.above.get(scope).copied()??,
            }),
        }
    }

    /// The scope that a group stands in.
    pub fn scope(&self, group: usize) -> Option<usize> {
        match self.inside(group) {
            Some(scope) => Some(self.around(scope)?.scope),
            None => self.of.get(group).copied(),
        }
    }

    // Where a node stands.
    fn standing(&self, node: usize) -> Option<Standing> {
        Some(Standing {
            group: node,
            scope: self.of.get(node).copied()?,
        })
    }

    /// The groups in which two nodes stand in one scope, the innermost that has both. A turn goes up by one scope.
    pub fn meet(&self, node: usize, other: usize) -> Option<(usize, usize)> {
        let mut one = self.standing(node)?;
        let mut two = self.standing(other)?;
        for _turn in 0..self.count() {
            if one.scope == two.scope {
                return Some((one.group, two.group));
            }
            if one.scope > two.scope {
                one = self.around(one.scope)?;
            } else {
                two = self.around(two.scope)?;
            }
        }
        None
    }
}
