// Items to the numbers of their nodes and clocked blocks.
ghost use Rattle.std.specs.Prelude.{◌≡◌, ◌+◌, IfOk};
ghost use Rattle.typed_ir.specs.Items.{body_of};
ghost use Rattle.driver_rules.specs.Told.{driver_id, numbers_after};

use crate::clocked_id::ClockedId;
use crate::driver_id::DriverId;
use crate::numbers::Numbers;
use ls_text::NoMemory;
use typed_ir::{ItemBody, NodeId};

/// What the next item is among the drivers; of one that drives nothing this says nothing.
pub fn driver_id(numbers: Numbers, body: &ItemBody) -> DriverId
    ensures { result ≡ driver_id numbers (body_of body.now) }
{
    match body {
        ItemBody::Node(_) | ItemBody::Initial(_) => DriverId::Node(NodeId(numbers.nodes)),
        ItemBody::Clocked(_) => DriverId::Clocked(ClockedId(numbers.blocks)),
    }
}

// One more; no memory holds as many items as there are numbers.
fn next(number: u32) -> Result<u32, NoMemory>
    ensures { IfOk result (λ n. n ≡ number + 1) }
{
    match number.checked_add(1) {
        Some(n) => Ok(n),
        None => Err(NoMemory),
    }
}

/// The numbers after this item, or want of memory where they pass 2^32.
pub fn numbers_after(numbers: Numbers, body: &ItemBody) -> Result<Numbers, NoMemory>
    ensures { IfOk result (λ k. k ≡ numbers_after numbers (body_of body.now)) }
{
    match body {
        ItemBody::Node(_) => Ok(Numbers {
            nodes: next(numbers.nodes)?,
            blocks: numbers.blocks,
        }),
        ItemBody::Clocked(_) => Ok(Numbers {
            nodes: numbers.nodes,
            blocks: next(numbers.blocks)?,
        }),
        ItemBody::Initial(_) => Ok(numbers),
    }
}
