// Which instances are of one unit, as far as their shapes tell, and what of the first one stands for what of the others.
use crate::groups::Groups;
use crate::owning::Belonging;
use crate::seating::Seating;
use crate::shape::Shape;
use indexmap::IndexMap;
use std::alloc::{AllocError, Global};
use typed_ir::{InstanceName, Signal};

/// The instances of a design by their units.
#[derive(Drop)]
pub struct Units {
    // Of each instance the first one of its unit.
    first: Vec<usize>,
    // Of each instance the one that stands in the first of a unit as it stands in one of that: itself, where it stands in none.
    inner: Vec<usize>,
    seating: Seating,
    belongings: Vec<Belonging>,
}

// The shape of each instance by itself.
fn shapes_of(
    alloc: Global,
    signals: &[Signal],
    seating: &Seating,
    instances: usize,
) -> Result<Vec<Shape>, AllocError> {
    let mut shapes = Vec::with_capacity(alloc, instances)?;
    for instance in 0..instances {
        let own = seating.own(instance).len();
        let connections = seating.connections(instance).len();
        shapes.push(Shape {
            module: 0,
            signals: 0,
            bits: 0,
            own,
            connections,
            instances: 1,
            nodes: own.saturating_add(connections),
        })?;
    }
    for signal in signals {
        let instance = signal.instance.index();
        if instance < shapes.len() {
            shapes[instance].module = signal.in_module.0;
            let earlier = shapes[instance];
            shapes[instance].signals = earlier.signals.saturating_add(1);
            shapes[instance].bits = earlier.bits.saturating_add(usize::from(signal.width));
        }
    }
    Ok(shapes)
}

// Counts what stands in each instance for it too.
fn count_inner(rows: &[InstanceName], shapes: &mut [Shape]) {
    for turn in 0..rows.len() {
        let place = rows.len() - 1 - turn;
        if let Some(parent) = rows[place].parent {
            let above = parent.index();
            if place < shapes.len() && above < shapes.len() {
                let inner = shapes[place];
                let outer = shapes[above];
                shapes[above].instances = outer.instances.saturating_add(inner.instances);
                shapes[above].nodes = outer.nodes.saturating_add(inner.nodes);
            }
        }
    }
}

// For each instance the first one of its shape.
fn first_ones(alloc: Global, shapes: &[Shape]) -> Result<Vec<usize>, AllocError> {
    let mut known = IndexMap::new(alloc);
    let mut first = Vec::with_capacity(alloc, shapes.len())?;
    for instance in 0..shapes.len() {
        let earlier = known.get(&shapes[instance]).copied();
        match earlier {
            Some(earlier) => first.push(earlier)?,
            None => {
                known.insert(shapes[instance], instance)?;
                first.push(instance)?;
            }
        }
    }
    Ok(first)
}

// For each instance the one that stands in the first of a unit as it stands in one of that.
fn inner_ones(
    alloc: Global,
    rows: &[InstanceName],
    first: &[usize],
) -> Result<Vec<usize>, AllocError> {
    let mut inner = Vec::with_capacity(alloc, rows.len())?;
    for instance in 0..rows.len() {
        inner.push(match rows[instance].parent {
            Some(parent) => moved(instance, parent.index(), first),
            None => instance,
        })?;
    }
    Ok(inner)
}

// The instance that stands in the first of a unit as one stands in this one of it; that itself, where there is none.
fn moved(instance: usize, above: usize, first: &[usize]) -> usize {
    match first.get(above) {
        Some(first) => match instance.checked_sub(above) {
            Some(behind) => first.saturating_add(behind),
            None => instance,
        },
        None => instance,
    }
}

// The number at a place of a list; the place itself, where there is none.
fn number_at(list: &[usize], place: usize) -> usize {
    match list.get(place) {
        Some(number) => *number,
        None => place,
    }
}

impl Units {
    /// The units of these instances, by the signals in them and by what belongs to them.
    pub fn new(
        alloc: Global,
        rows: &[InstanceName],
        signals: &[Signal],
        belongings: Vec<Belonging>,
    ) -> Result<Units, AllocError> {
        let seating = Seating::new(alloc, rows.len(), signals, &belongings)?;
        let mut shapes = shapes_of(alloc, signals, &seating, rows.len())?;
        count_inner(rows, &mut shapes);
        let first = first_ones(alloc, &shapes)?;
        Ok(Units {
            inner: inner_ones(alloc, rows, &first)?,
            first,
            seating,
            belongings,
        })
    }

    /// The first instance of an instance's unit.
    pub fn first(&self, instance: usize) -> usize {
        number_at(&self.first, instance)
    }

    /// The instance of which a node is an own one.
    pub fn owner(&self, node: usize) -> Option<usize> {
        let belonging = self.belongings.get(node).copied()?;
        if belonging.is_own {
            Some(belonging.instance.index())
        } else {
            None
        }
    }

    /// The own nodes of an instance.
    pub fn own(&self, instance: usize) -> &[usize] {
        self.seating.own(instance)
    }

    /// The node that has in an instance the place of another one; that itself, where there is none.
    pub fn seat(&self, node: usize, instance: usize) -> usize {
        match self.belongings.get(node) {
            Some(belonging) => self.seating.like(node, *belonging, instance),
            None => node,
        }
    }

    /// For each group the one that stands for it in the first instance of its unit. A node is of the unit of the instance that it belongs to,
    /// and so are an instance's own nodes; an instance as a whole is of the unit of the one above.
    pub fn likes(&self, alloc: Global, groups: &Groups) -> Result<Vec<usize>, AllocError> {
        let mut likes = Vec::with_capacity(alloc, groups.count())?;
        for node in 0..self.belongings.len() {
            let first = self.first(self.belongings[node].instance.index());
            likes.push(self.seat(node, first))?;
        }
        for first in &self.first {
            likes.push(groups.own(*first))?;
        }
        for inner in &self.inner {
            likes.push(groups.whole(*inner))?;
        }
        Ok(likes)
    }
}

/// The group that stands for another one, by such a list; that itself, where there is none.
pub fn like_of(likes: &[usize], group: usize) -> usize {
    number_at(likes, group)
}
