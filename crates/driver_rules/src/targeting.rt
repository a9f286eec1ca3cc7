// Items to the first target that may not be written by what writes it (33).
ghost use Rattle.std.specs.Prelude.{◌≡◌, [], IfOk, IfErr, OnOk, map, not};
ghost use Rattle.typed_ir.specs.FlatNodes.{node_of};
ghost use Rattle.typed_ir.specs.Units.{unit_node_of};
ghost use Rattle.typed_ir.specs.Items.{body_of, item_of};
ghost use Rattle.width_rules.specs.Faults.{IsFirst};
ghost use Rattle.block_rules.specs.Paths.{places_of_true};
ghost use Rattle.driver_rules.specs.Targets.{flag_at, is_net_kind, is_variable_kind, is_net, is_variable, flat_writer, node_writer, writer_of, may_write, target_faults, all_target_faults};

use crate::showing::{check_shown, earliest, note_if};
use crate::spanning::written;
use ls_text::{NoMemory, Refusal};
use std::alloc::Global;
use typed_ir::{ItemBody, Node, SignalDeclaration, SignalId, SignalKind, TypedItem, UnitNode};
use width_rules::Writer;

fn flat_writer(node: &Node) -> Writer
    ensures { result ≡ flat_writer (node_of node.now) }
{
    match node {
        Node::Drive { .. } => Writer::Continuous,
        Node::Block { .. } => Writer::Combinational,
    }
}

fn node_writer(node: &UnitNode) -> Writer
    ensures { result ≡ node_writer (unit_node_of node.now) }
{
    match node {
        UnitNode::Own(node) => flat_writer(node),
        UnitNode::Into { .. } | UnitNode::From { .. } => Writer::Continuous,
    }
}

/// As what an item writes.
pub fn writer_of(body: &ItemBody) -> Writer
    ensures { result ≡ writer_of (body_of body.now) }
{
    match body {
        ItemBody::Node(node) => node_writer(node),
        ItemBody::Clocked(_) | ItemBody::Initial(_) => Writer::Clocked,
    }
}

fn is_net_kind(kind: SignalKind) -> bool
    ensures { result ≡ is_net_kind kind }
{
    match kind {
        SignalKind::Net => true,
        SignalKind::Input | SignalKind::Variable => false,
    }
}

fn is_variable_kind(kind: SignalKind) -> bool
    ensures { result ≡ is_variable_kind kind }
{
    match kind {
        SignalKind::Variable => true,
        SignalKind::Input | SignalKind::Net => false,
    }
}

fn is_net(declarations: &[SignalDeclaration], signal: SignalId) -> bool
    ensures { result ≡ is_net declarations.now signal }
{
    let place = signal.index();
    if place < declarations.len() {
        is_net_kind(declarations[place].kind)
    } else {
        false
    }
}

fn is_variable(declarations: &[SignalDeclaration], signal: SignalId) -> bool
    ensures { result ≡ is_variable declarations.now signal }
{
    let place = signal.index();
    if place < declarations.len() {
        is_variable_kind(declarations[place].kind)
    } else {
        false
    }
}

// Whether the flag of a signal is set.
fn is_flagged(flags: &[bool], signal: SignalId) -> bool
    ensures { result ≡ flag_at flags.now signal }
{
    let place = signal.index();
    if place < flags.len() {
        flags[place]
    } else {
        false
    }
}

fn may_write(
    declarations: &[SignalDeclaration],
    settled: &[bool],
    writer: Writer,
    signal: SignalId,
) -> bool
    ensures { result ≡ may_write declarations.now (flag_at settled.now) writer signal }
{
    match writer {
        Writer::Nothing => false,
        Writer::Continuous => is_net(declarations, signal),
        Writer::Clocked => is_variable(declarations, signal) && !is_flagged(settled, signal),
        Writer::Combinational => is_variable(declarations, signal),
    }
}

// The numbers of the signals that may not be written so.
fn bad_targets(
    alloc: Global,
    declarations: &[SignalDeclaration],
    settled: &[bool],
    writer: Writer,
    signals: &[SignalId],
) -> Result<Vec<usize>, NoMemory>
    ensures { IfOk result (λ bad. bad.items
        ≡ places_of_true (map (λ s. not (may_write declarations.now (flag_at settled.now) writer s)) signals.now)) }
{
    let mut bad = Vec::new(alloc);
    for k in 0..signals.len() {
        let fault = !may_write(declarations, settled, writer, signals[k]);
        note_if(fault, k, &mut bad)?;
    }
    Ok(bad)
}

// A part of an item that it may not write, or want of memory.
fn check_item(
    alloc: Global,
    declarations: &[SignalDeclaration],
    settled: &[bool],
    item: &TypedItem,
) -> Result<(), Refusal>
    ensures faultless { OnOk result (target_faults declarations.now (flag_at settled.now) (item_of item.now) ≡ []) }
    ensures fault { IfErr result (IsFirst (target_faults declarations.now (flag_at settled.now) (item_of item.now))) }
{
    let signals = written(alloc, &item.body)?;
    let writer = writer_of(&item.body);
    let bad = bad_targets(alloc, declarations, settled, writer, &signals)?;
    let shown = earliest(&bad, &item.places.targets, item.places.at);
    check_shown(alloc, 33, shown)
}

/// 33 BadTarget at the first item, and there at the earliest part, that writes what it may not: an assignment or a connection what is no
/// net, a block what is no variable, a clocked block or an initial value what a combinational block writes. Else want of memory.
#[tactic(auto, using(width_rules::proofs::Firsts::earlier, width_rules::proofs::Firsts::later, width_rules::proofs::Firsts::neither, crate::proofs::Walks::target_ahead, crate::proofs::Walks::target_fault))]
pub fn check_targets(
    alloc: Global,
    declarations: &[SignalDeclaration],
    settled: &[bool],
    items: &[TypedItem],
) -> Result<(), Refusal>
    ensures faultless { OnOk result (all_target_faults declarations.now (flag_at settled.now) (map item_of items.now) ≡ []) }
    ensures fault { IfErr result (IsFirst (all_target_faults declarations.now (flag_at settled.now) (map item_of items.now))) }
{
    for item in items {
        check_item(alloc, declarations, settled, item)?;
    }
    Ok(())
}
