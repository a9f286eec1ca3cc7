// Items to the bits that they drive or write, as spans.
ghost use Rattle.std.specs.Prelude.{◌≡◌, ◌∷◌, [], IfOk, MatchOption, map};
ghost use Rattle.typed_ir.specs.declared.span.Span.{Span};
ghost use Rattle.typed_ir.specs.Nodes.{lane_spans};
ghost use Rattle.typed_ir.specs.FlatNodes.{node_of};
ghost use Rattle.typed_ir.specs.Statements.{stmt_of};
ghost use Rattle.typed_ir.specs.Units.{unit_node_of};
ghost use Rattle.typed_ir.specs.Items.{body_of};
ghost use Rattle.driver_rules.specs.Writes.{flat_spans, node_spans, spans_of, written, flat_blocks, node_blocks, blocks_of};

use block_rules::targets_in;
use ls_text::NoMemory;
use std::alloc::Global;
use typed_ir::{ItemBody, Lane, Node, SignalId, Span, Stmt, UnitNode, later_spans};

// The bits of a target's lanes.
fn lane_spans(alloc: Global, lanes: &[Lane]) -> Result<Vec<Span>, NoMemory>
    ensures { IfOk result (λ spans. spans.items ≡ lane_spans lanes.now) }
{
    let mut spans = Vec::new(alloc);
    for lane in lanes {
        spans.push(lane.span)?;
    }
    Ok(spans)
}

fn flat_spans(alloc: Global, node: &Node) -> Result<Vec<Span>, NoMemory>
    ensures { IfOk result (λ spans. spans.items ≡ flat_spans (node_of node.now)) }
{
    match node {
        Node::Drive { lanes, .. } => lane_spans(alloc, lanes),
        Node::Block { body, .. } => targets_in(alloc, body),
    }
}

fn node_spans(alloc: Global, node: &UnitNode) -> Result<Vec<Span>, NoMemory>
    ensures { IfOk result (λ spans. spans.items ≡ node_spans (unit_node_of node.now)) }
{
    match node {
        UnitNode::Own(node) => flat_spans(alloc, node),
        UnitNode::Into { .. } => Ok(Vec::new(alloc)),
        UnitNode::From { lanes, .. } => lane_spans(alloc, lanes),
    }
}

/// The bits of its module that an item drives or writes, part by part. Want of memory is `NoMemory`.
pub fn spans_of(alloc: Global, body: &ItemBody) -> Result<Vec<Span>, NoMemory>
    ensures { IfOk result (λ spans. spans.items ≡ spans_of (body_of body.now)) }
{
    match body {
        ItemBody::Node(node) => node_spans(alloc, node),
        ItemBody::Clocked(st) => later_spans(alloc, st),
        ItemBody::Initial(_) => Ok(Vec::new(alloc)),
    }
}

// The signals of spans.
fn signals_of(alloc: Global, spans: &[Span]) -> Result<Vec<SignalId>, NoMemory>
    ensures { IfOk result (λ signals. signals.items ≡ map (λ (p : Span). p.signal) spans.now) }
{
    let mut signals = Vec::new(alloc);
    for span in spans {
        signals.push(span.signal)?;
    }
    Ok(signals)
}

/// The signals of its module that an item drives or writes, part by part; of a declaration with an initial value its own. Want of
/// memory is `NoMemory`.
pub fn written(alloc: Global, body: &ItemBody) -> Result<Vec<SignalId>, NoMemory>
    ensures { IfOk result (λ signals. signals.items ≡ written (body_of body.now)) }
{
    match body {
        ItemBody::Node(node) => {
            let spans = node_spans(alloc, node)?;
            signals_of(alloc, &spans)
        }
        ItemBody::Clocked(st) => {
            let spans = later_spans(alloc, st)?;
            signals_of(alloc, &spans)
        }
        ItemBody::Initial(signal) => {
            let mut signals = Vec::new(alloc);
            signals.push(*signal)?;
            Ok(signals)
        }
    }
}

fn flat_block(node: &Node) -> Option<&Stmt>
    ensures { MatchOption result (flat_blocks (node_of node.now) ≡ []) (λ st. flat_blocks (node_of node.now) ≡ stmt_of st.now ∷ []) }
{
    match node {
        Node::Drive { .. } => None,
        Node::Block { body, .. } => Some(body),
    }
}

fn node_block(node: &UnitNode) -> Option<&Stmt>
    ensures { MatchOption result (node_blocks (unit_node_of node.now) ≡ []) (λ st. node_blocks (unit_node_of node.now) ≡ stmt_of st.now ∷ []) }
{
    match node {
        UnitNode::Own(node) => flat_block(node),
        UnitNode::Into { .. } | UnitNode::From { .. } => None,
    }
}

/// The combinational block that an item is.
pub fn block_of(body: &ItemBody) -> Option<&Stmt>
    ensures { MatchOption result (blocks_of (body_of body.now) ≡ []) (λ st. blocks_of (body_of body.now) ≡ stmt_of st.now ∷ []) }
{
    match body {
        ItemBody::Node(node) => node_block(node),
        ItemBody::Clocked(_) | ItemBody::Initial(_) => None,
    }
}
