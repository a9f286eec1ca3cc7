// What a unit gives, by its own numbers, to what it gives where an instance stands.
ghost use Rattle.std.specs.Prelude.{◌≡◌, ◌++◌, ◌+◌, ◌<◌, IfOk, List, ℕ, map, slice_index};
ghost use Rattle.typed_ir.specs.declared.instance_name.InstanceName.{InstanceName};
ghost use Rattle.typed_ir.specs.Flats.{signal_of, are_within};
ghost use Rattle.typed_ir.specs.FlatNodes.{node_of};
ghost use Rattle.typed_ir.specs.Statements.{stmt_of};
ghost use Rattle.typed_ir.specs.Shifts.{shifted_span, shifted_lane, shifted_stmt};
ghost use Rattle.typed_ir.specs.Trees.{node_there, signal_there};
ghost use Rattle.typed_ir.specs.Units.{signal_within, unit_node_of};
ghost use Rattle.link.specs.Copies.{path_at};

use ls_text::NoMemory;
use std::alloc::Global;
use typed_ir::{
    ChildId, InstanceId, Lane, Node, Signal, SignalId, Span, Stmt, UnitNode, UnitSignal,
    shifted_node, shifted_stmt, shifted_typed,
};

// The number of a signal, where those of its unit begin at the first one. Past the largest number there is no memory.
fn behind(first: u32, signal: SignalId) -> Result<SignalId, NoMemory>
    ensures { IfOk result (λ n. n ≡ first + signal) }
{
    let number = signal.number();
    match first.checked_add(number) {
        Some(number) => Ok(SignalId(number)),
        None => Err(NoMemory),
    }
}

fn copied_span(span: Span, first: u32) -> Result<Span, NoMemory>
    ensures { IfOk result (λ p. p ≡ shifted_span first span) }
{
    Ok(Span {
        signal: behind(first, span.signal)?,
        low: span.low,
        width: span.width,
    })
}

fn copied_lane(lane: Lane, first: u32) -> Result<Lane, NoMemory>
    ensures { IfOk result (λ l. l ≡ shifted_lane first lane) }
{
    Ok(Lane {
        shift: lane.shift,
        span: copied_span(lane.span, first)?,
    })
}

fn copied_lanes(alloc: Global, lanes: &[Lane], first: u32) -> Result<Vec<Lane>, NoMemory>
    ensures { IfOk result (λ ls. ls.items ≡ map (shifted_lane first) lanes.now) }
{
    let mut copies = Vec::new(alloc);
    for lane in lanes {
        let to = copied_lane(*lane, first)?;
        copies.push(to)?;
    }
    Ok(copies)
}

// The first signal of an instance within the unit.
fn first_of(kids: &[u32], child: ChildId) -> u32
    ensures { result ≡ slice_index kids.now child }
{
    let index = child.index();
    if index >= kids.len() {
        return 0;
    }
    kids[index]
}

fn copied_node(alloc: Global, node: &UnitNode, first: u32, kids: &[u32]) -> Result<Node, NoMemory>
    ensures { IfOk result (λ to. node_of to ≡ node_there first (slice_index kids.now) (unit_node_of node.now)) }
{
    match node {
        UnitNode::Own(node) => shifted_node(alloc, node, first),
        UnitNode::Into {
            child,
            form,
            lanes,
            value,
        } => {
            let lanes = copied_lanes(alloc, lanes, first_of(kids, *child))?;
            let value = shifted_typed(alloc, value, first)?;
            Ok(Node::Drive {
                form: *form,
                lanes,
                value,
            })
        }
        UnitNode::From {
            child,
            form,
            lanes,
            value,
        } => {
            let lanes = copied_lanes(alloc, lanes, first)?;
            let value = shifted_typed(alloc, value, first_of(kids, *child))?;
            Ok(Node::Drive {
                form: *form,
                lanes,
                value,
            })
        }
    }
}

/// The nodes of a unit where it stands join those that are there.
pub fn add_nodes(
    alloc: Global,
    own: &[UnitNode],
    first: u32,
    kids: &[u32],
    nodes: &mut Vec<Node>,
) -> Result<(), NoMemory>
    ensures { IfOk result (λ _. map node_of nodes.new.items
        ≡ map node_of nodes.old.items ++ map (node_there first (slice_index kids.now)) (map unit_node_of own.now)) }
{
    for node in own {
        let copy = copied_node(alloc, node, first, kids)?;
        nodes.push(copy)?;
    }
    Ok(())
}

/// The clocked blocks of a unit where it stands join those that are there.
pub fn add_blocks(
    alloc: Global,
    own: &[Stmt],
    first: u32,
    clocked: &mut Vec<Stmt>,
) -> Result<(), NoMemory>
    ensures { IfOk result (λ _. map stmt_of clocked.new.items
        ≡ map stmt_of clocked.old.items ++ map (shifted_stmt first) (map stmt_of own.now)) }
{
    for block in own {
        let copy = shifted_stmt(alloc, block, first)?;
        clocked.push(copy)?;
    }
    Ok(())
}

/// The registers of a unit where it stands join those that are there.
pub fn add_registers(
    own: &[SignalId],
    first: u32,
    registers: &mut Vec<SignalId>,
) -> Result<(), NoMemory>
    ensures { IfOk result (λ _. registers.new.items ≡ registers.old.items ++ map (λ s. first + s) own.now) }
{
    for signal in own {
        let to = behind(first, *signal)?;
        registers.push(to)?;
    }
    Ok(())
}

fn copied_signal(x: UnitSignal, instance: InstanceId) -> Signal
    ensures signal { (rows : List InstanceName) → signal_of rows result ≡ signal_there (path_at rows instance) (signal_within x) }
    ensures there { result.instance ≡ instance }
{
    Signal {
        in_module: x.in_module,
        instance,
        name: x.name,
        lsb: x.lsb,
        signed: x.signed,
        width: x.width,
        initial: x.initial,
    }
}

/// The signals of a unit where it stands join those that are there.
pub fn add_signals(
    own: &[UnitSignal],
    instance: InstanceId,
    signals: &mut Vec<Signal>,
) -> Result<(), NoMemory>
    ensures signals { IfOk result (λ _. (rows : List InstanceName) → map (signal_of rows) signals.new.items
        ≡ map (signal_of rows) signals.old.items ++ map (signal_there (path_at rows instance)) (map signal_within own.now)) }
    ensures there { IfOk result (λ _. (count : ℕ) → instance < count → are_within signals.new.items count ≡ are_within signals.old.items count) }
{
    for x in own {
        let copy = copied_signal(*x, instance);
        signals.push(copy)?;
    }
    Ok(())
}
