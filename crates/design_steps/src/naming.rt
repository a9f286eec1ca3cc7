// Nodes that only give another name to a signal.
ghost use Rattle.std.specs.Prelude.{◌≡◌, length, slice_index};
ghost use Rattle.typed_ir.specs.FlatNodes.{node_of};
ghost use Rattle.typed_ir.specs.Forms.{sized};
ghost use Rattle.design_steps.specs.Namings.{has_width, is_whole, named, name_given, is_shared};

use typed_ir::{Form, Lane, Node, SignalId};

/// A wire that is only another name, and the signal that it names.
#[derive(Clone, Copy, Debug, PartialEq, Eq)]
pub struct Naming {
    pub wire: SignalId,
    pub signal: SignalId,
}

// Whether a signal is there with this width, in bits.
fn has_width(signal: SignalId, width: u8, widths: &[u8]) -> bool
    ensures { result ≡ has_width signal width widths.now }
{
    match widths.get(signal.index()) {
        Some(own) => *own == width && width > 0,
        None => false,
    }
}

// Whether so many bits of a value go to a whole signal.
fn is_whole(lane: &Lane, width: u8, widths: &[u8]) -> bool
    ensures { result ≡ is_whole lane.now width widths.now }
{
    lane.shift == 0
        && lane.span.low == 0
        && lane.span.width == width
        && has_width(lane.span.signal, width, widths)
}

// The name that the value of an expression gives to a wire.
fn named(lane: &Lane, form: &Form, widths: &[u8]) -> Option<Naming>
    ensures { result ≡ named lane.now (sized form.now) widths.now }
{
    match form {
        Form::Name { signal, width } => {
            if is_whole(lane, *width, widths) && has_width(*signal, *width, widths) {
                Some(Naming {
                    wire: lane.span.signal,
                    signal: *signal,
                })
            } else {
                None
            }
        }
        _ => None,
    }
}

/// The wire that a node drives as a whole with a signal of its width; none where it does anything else.
pub fn name_given(node: &Node, widths: &[u8]) -> Option<Naming>
    ensures { result ≡ name_given (node_of node.now) widths.now }
{
    match node {
        Node::Drive { lanes, value, .. } => {
            if lanes.len() == 1 {
                named(&lanes[0], &value.form, widths)
            } else {
                None
            }
        }
        Node::Block { .. } => None,
    }
}

/// Whether a node only gives a name to a signal in whose place the wire stands, so that nothing is left to do.
pub fn is_shared(node: &Node, widths: &[u8], slots: &[u32]) -> bool
    ensures { result ≡ is_shared widths.now slots.now (node_of node.now) }
{
    match name_given(node, widths) {
        Some(named) => match (
            slots.get(named.wire.index()),
            slots.get(named.signal.index()),
        ) {
            (Some(one), Some(other)) => *one == *other,
            _ => false,
        },
        None => false,
    }
}
