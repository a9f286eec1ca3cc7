// What stands for what in instances of one unit. A design lists the signals and nodes of all instances of a unit alike: so their own nodes stand
// for each other by their places among these, and so do their connections; and what reads nothing by the place of what it drives among the
// signals. (A port with a constant is driven by a node that isn't the unit's, and that perhaps no other instance has.)
use crate::group_graph::{empty_rows, note};
use crate::owning::Belonging;
use std::alloc::{AllocError, Global};
use typed_ir::Signal;

/// The nodes and signals of each instance.
#[derive(Drop)]
pub struct Seating {
    own: Vec<Vec<usize>>,
    connections: Vec<Vec<usize>>,
    // Of each node its place among those; of what reads nothing a number that says nothing.
    places: Vec<usize>,
    // The first signal of each instance.
    signals: Vec<usize>,
    // For each signal a node that drives it first and reads nothing.
    constants: Vec<Option<usize>>,
}

// The row of an instance.
fn row_of(rows: &[Vec<usize>], instance: usize) -> &[usize] {
    match rows.get(instance) {
        Some(row) => row,
        None => &[],
    }
}

// The first signal of each instance.
fn first_signals(
    alloc: Global,
    instances: usize,
    signals: &[Signal],
) -> Result<Vec<usize>, AllocError> {
    let mut first = vec![in alloc; usize::MAX; instances]?;
    for number in 0..signals.len() {
        let instance = signals[number].instance.index();
        if instance < first.len() {
            first[instance] = first[instance].min(number);
        }
    }
    Ok(first)
}

// For each of so many signals a node that drives it first and reads nothing.
fn constants_of(
    alloc: Global,
    count: usize,
    belongings: &[Belonging],
) -> Result<Vec<Option<usize>>, AllocError> {
    let mut constants = vec![in alloc; None; count]?;
    for node in 0..belongings.len() {
        let signal = belongings[node].drives.index();
        if !belongings[node].reads && signal < constants.len() {
            constants[signal] = Some(node);
        }
    }
    Ok(constants)
}

impl Seating {
    /// The nodes of so many instances, to which they belong so, and these signals of theirs.
    pub fn new(
        alloc: Global,
        instances: usize,
        signals: &[Signal],
        belongings: &[Belonging],
    ) -> Result<Seating, AllocError> {
        let mut own = empty_rows(alloc, instances)?;
        let mut connections = empty_rows(alloc, instances)?;
        let mut places = Vec::with_capacity(alloc, belongings.len())?;
        for node in 0..belongings.len() {
            let belonging = belongings[node];
            let instance = belonging.instance.index();
            if belonging.is_own {
                places.push(row_of(&own, instance).len())?;
                note(&mut own, instance, node)?;
            } else {
                places.push(row_of(&connections, instance).len())?;
                if belonging.reads {
                    note(&mut connections, instance, node)?;
                }
            }
        }
        Ok(Seating {
            own,
            connections,
            places,
            signals: first_signals(alloc, instances, signals)?,
            constants: constants_of(alloc, signals.len(), belongings)?,
        })
    }

    /// The own nodes of an instance.
    pub fn own(&self, instance: usize) -> &[usize] {
        row_of(&self.own, instance)
    }

    /// The connections of an instance.
    pub fn connections(&self, instance: usize) -> &[usize] {
        row_of(&self.connections, instance)
    }

    // The node of an instance that reads nothing and drives what another one does, which belongs so.
    fn constant_like(&self, belonging: Belonging, instance: usize) -> Option<usize> {
        let from = *self.signals.get(belonging.instance.index())?;
        let to = *self.signals.get(instance)?;
        let signal = belonging.drives.index().checked_sub(from)?.checked_add(to)?;
        *self.constants.get(signal)?
    }

    // The node of an instance that has the place of one which belongs so.
    fn placed_like(&self, node: usize, belonging: Belonging, instance: usize) -> Option<usize> {
        let row = if belonging.is_own {
            self.own(instance)
        } else {
            self.connections(instance)
        };
        row.get(*self.places.get(node)?).copied()
    }

    /// The node of this instance that stands for one which belongs so; that itself, where there is none.
    pub fn like(&self, node: usize, belonging: Belonging, instance: usize) -> usize {
        let other = if belonging.reads {
            self.placed_like(node, belonging, instance)
        } else {
            self.constant_like(belonging, instance)
        };
        match other {
            Some(other) => other,
            None => node,
        }
    }
}
