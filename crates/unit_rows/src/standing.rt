// Whether units stand in a tree of instances.
ghost use Rattle.std.specs.Prelude.{◌≡◌, ◌∷◌, IfOk, IfSome, ⊤, map, if◌then◌else◌};
ghost use Rattle.std.specs.Bool.{MatchBool};
ghost use Rattle.typed_ir.specs.Shapes.{AreOf, HasPorts, data_inputs, is_clock, is_data_input};
ghost use Rattle.link.specs.Listings.{all_parts, parts_of};
ghost use Rattle.unit_jobs.specs.Rows.{row_of};
ghost use Rattle.unit_rows.specs.Standing.{AreWith, HaveWidths, IsUnitOf};

use ls_text::{NameId, NoMemory};
use std::alloc::Global;
use std::sync::Arc;
use typed_ir::{
    ChildShape, Instance, InstanceTree, PortShape, SignalId, Unit, UnitParts, UnitSignal,
};
use unit_jobs::shapes_within;

// Whether two clock ports are equal.
fn same_clock(left: Option<NameId>, right: Option<NameId>) -> bool
    ensures { MatchBool result (left ≡ right) ⊤ }
{
    match (left, right) {
        (None, None) => true,
        (Some(left), Some(right)) => left == right,
        _ => false,
    }
}

// Whether two ports are equal.
fn same_port(left: PortShape, right: PortShape) -> bool
    ensures { MatchBool result (left ≡ right) ⊤ }
{
    left == right
}

// Whether two lists of ports are equal.
fn same_ports(left: &[PortShape], right: &[PortShape]) -> bool
    ensures { MatchBool result (left.now ≡ right.now) ⊤ }
{
    let mut rest = right;
    for one in left {
        let Some((first, behind)) = rest.split_first() else {
            return false;
        };
        if !same_port(*one, *first) {
            return false;
        }
        rest = behind;
    }
    rest.is_empty()
}

// Whether two shapes are equal.
fn same_shape(left: &ChildShape, right: &ChildShape) -> bool
    ensures { MatchBool result (left.now ≡ right.now) ⊤ }
{
    left.instance == right.instance
        && same_clock(left.clock, right.clock)
        && same_ports(left.ports.as_slice(), right.ports.as_slice())
}

// Whether two lists of shapes are equal.
fn same_shapes(left: &[ChildShape], right: &[ChildShape]) -> bool
    ensures { MatchBool result (left.now ≡ right.now) ⊤ }
{
    let mut rest = right;
    for one in left {
        let Some((first, behind)) = rest.split_first() else {
            return false;
        };
        if !same_shape(one, first) {
            return false;
        }
        rest = behind;
    }
    rest.is_empty()
}

// Whether the first of these signals are as wide as the ports.
#[tactic(auto, using(crate::proofs::Fitting::widths_more))]
fn have_widths(signals: &[UnitSignal], ports: &[PortShape]) -> bool
    ensures { MatchBool result (HaveWidths signals.now ports.now) ⊤ }
{
    let mut rest = signals;
    for port in ports {
        let Some((signal, behind)) = rest.split_first() else {
            return false;
        };
        if signal.width != port.width {
            return false;
        }
        rest = behind;
    }
    true
}

// Whether a port is the clock.
fn is_clock(clock: Option<NameId>, name: NameId) -> bool
    ensures { result ≡ is_clock clock name }
{
    match clock {
        None => false,
        Some(clock) => clock == name,
    }
}

fn is_data_input(clock: Option<NameId>, port: PortShape) -> bool
    ensures { result ≡ is_data_input clock port }
{
    port.input && !is_clock(clock, port.name)
}

// What is left of data inputs behind a port that has this place; none where it is one and they don't begin with it.
fn behind_input(inputs: &[SignalId], place: usize, is_input: bool) -> Option<&[SignalId]>
    ensures { IfSome result (λ behind. inputs.now ≡ (if is_input then place ∷ behind.now else behind.now)) }
{
    if !is_input {
        return Some(inputs);
    }
    let (first, behind) = inputs.split_first()?;
    if first.index() == place {
        Some(behind)
    } else {
        None
    }
}

// Whether these are the data inputs among ports.
#[tactic(auto, using(crate::proofs::Fitting::inputs_more))]
fn are_inputs(inputs: &[SignalId], clock: Option<NameId>, ports: &[PortShape]) -> bool
    ensures { MatchBool result (inputs.now ≡ data_inputs clock 0 ports.now) ⊤ }
{
    let mut rest = inputs;
    for place in 0..ports.len() {
        match behind_input(rest, place, is_data_input(clock, ports[place])) {
            Some(behind) => rest = behind,
            None => return false,
        }
    }
    rest.is_empty()
}

// Whether a unit has the ports of an instance.
#[tactic(auto, using(crate::proofs::Fitting::has_both))]
fn has_ports(parts: &UnitParts, one: &Instance) -> bool
    ensures { MatchBool result (HasPorts parts.now one.now.clock one.now.ports) ⊤ }
{
    let ports = one.ports.as_slice();
    if !have_widths(&parts.signals, ports) {
        return false;
    }
    if !are_inputs(&parts.inputs, one.clock, ports) {
        return false;
    }
    true
}

// Whether a unit has the ports of an instance, and these shapes.
#[tactic(auto, using(crate::proofs::Fitting::is_both))]
fn is_unit_of(parts: &UnitParts, one: &Instance, shapes: &[ChildShape]) -> bool
    ensures { MatchBool result (IsUnitOf parts.now one.now shapes.now) ⊤ }
{
    if !has_ports(parts, one) {
        return false;
    }
    if !same_shapes(parts.shapes.as_slice(), shapes) {
        return false;
    }
    true
}

// The same of a shared unit.
fn is_shared_of(unit: &Arc<Unit, Global>, one: &Instance, shapes: &[ChildShape]) -> bool
    ensures { MatchBool result (IsUnitOf (parts_of unit.now) one.now shapes.now) ⊤ }
{
    is_unit_of(&unit.parts, one, shapes)
}

// Whether each instance has its unit, where those in it are its row.
fn are_with(rows: &[Vec<ChildShape>], instances: &[Instance], units: &[Arc<Unit, Global>]) -> bool
    ensures { MatchBool result (AreWith (map row_of rows.now) instances.now (all_parts units.now)) ⊤ }
{
    let mut left = instances;
    let mut rest = units;
    for row in rows {
        let Some((one, after)) = left.split_first() else {
            return false;
        };
        let Some((unit, behind)) = rest.split_first() else {
            return false;
        };
        if !is_shared_of(unit, one, row) {
            return false;
        }
        left = after;
        rest = behind;
    }
    if !left.is_empty() {
        return false;
    }
    if !rest.is_empty() {
        return false;
    }
    true
}

/// Whether each instance of a tree has a unit with its ports and with the shapes of those that stand in it. It is linear in the instances
/// and in their ports.
#[tactic(auto, using(crate::proofs::Fitting::are_of))]
pub fn stand_in(
    alloc: Global,
    tree: &InstanceTree,
    units: &[Arc<Unit, Global>],
) -> Result<bool, NoMemory>
    ensures { IfOk result (λ stand. MatchBool stand (AreOf tree.now.instances.items 0 tree.now.instances.items (all_parts units.now)) ⊤) }
{
    let rows = shapes_within(alloc, &tree.instances)?;
    if !are_with(&rows, &tree.instances, units) {
        return Ok(false);
    }
    Ok(true)
}
