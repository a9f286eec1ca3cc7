// The instance that each node belongs to: the least of those whose signals it drives or reads, which of a connection is the outer one.
// A port with a constant is driven within the inner one, like a constant of its own; so what reads nothing stands alone too.
use ls_text::NoMemory;
use std::alloc::Global;
use typed_ir::{InstanceId, Node, Signal, SignalId, Touch, drives_of, reads_of};

/// Where a node belongs.
#[derive(Clone, Copy, Debug, PartialEq, Eq)]
pub struct Belonging {
    /// The least instance of the signals that it drives and reads.
    pub instance: InstanceId,
    /// The first signal that it drives; the first of all, where it drives none.
    pub drives: SignalId,
    /// Whether it reads a signal.
    pub reads: bool,
    /// Whether it is one of that instance's own: it reads a signal, and all these signals stand in that instance.
    pub is_own: bool,
}

// The least number of an instance among one and those of some signals.
fn least_of(touches: &[Touch], signals: &[Signal], known: u32) -> u32 {
    let mut least = known;
    for touch in touches {
        if let Some(signal) = signals.get(touch.signal.index()) {
            least = least.min(signal.instance.0);
        }
    }
    least
}

// The greatest number of an instance among one and those of some signals.
fn greatest_of(touches: &[Touch], signals: &[Signal], known: u32) -> u32 {
    let mut greatest = known;
    for touch in touches {
        if let Some(signal) = signals.get(touch.signal.index()) {
            greatest = greatest.max(signal.instance.0);
        }
    }
    greatest
}

// Where a node belongs; to the top, where it drives and reads nothing.
fn belonging_of(alloc: Global, node: &Node, signals: &[Signal]) -> Result<Belonging, NoMemory> {
    let driven = drives_of(alloc, node)?;
    let read = reads_of(alloc, node)?;
    let least = least_of(&read, signals, least_of(&driven, signals, u32::MAX));
    let greatest = greatest_of(&read, signals, greatest_of(&driven, signals, 0));
    let drives = match driven.first() {
        Some(touch) => touch.signal,
        None => SignalId(0),
    };
    Ok(Belonging {
        instance: InstanceId(least.min(greatest)),
        drives,
        reads: !read.is_empty(),
        is_own: least == greatest && !read.is_empty(),
    })
}

/// Where each node belongs. Want of memory is `NoMemory`.
pub fn belongings_of(
    alloc: Global,
    nodes: &[Node],
    signals: &[Signal],
) -> Result<Vec<Belonging>, NoMemory> {
    let mut belongings = Vec::with_capacity(alloc, nodes.len())?;
    for node in nodes {
        let belonging = belonging_of(alloc, node, signals)?;
        belongings.push(belonging)?;
    }
    Ok(belongings)
}
