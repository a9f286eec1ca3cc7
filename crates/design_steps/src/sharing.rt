// Wires that stand where the signal does of which they are another name.
ghost use Rattle.std.specs.Prelude.{◌≡◌, ◌<◌, ◌≤◌, ◌+◌, ◌-◌, ◌&&◌, ◌||◌, ◌==◌, not, ℕ, All, nat_lt, length, map, slice_index, ◌++◌, [], ◌∷◌, if◌then◌else◌, IfOk, OnOk};
ghost use Rattle.std.specs.List.{range_with_len};
ghost use Rattle.typed_ir.specs.Flats.{signal_widths};
ghost use Rattle.typed_ir.specs.FlatNodes.{node_of};
ghost use Rattle.typed_ir.specs.Orders.{is_member};
ghost use Rattle.design_steps.specs.Namings.{AreShared, AreMarked, is_shared, kept, mark_at};

use crate::naming::{is_shared, name_given};
use ls_text::NoMemory;
use std::alloc::Global;
use typed_ir::{Flat, Linked, Node, NodeId, SignalId};

// Marks a signal that is there.
fn mark_one(signal: SignalId, marks: &mut [bool])
    ensures { (s : ℕ) → mark_at marks.new s ≡ (mark_at marks.old s || (nat_lt s (length marks.old) && (s == signal))) }
{
    let place = signal.index();
    if place >= marks.len() {
        return;
    }
    marks[place] = true;
}

// Marks signals.
fn mark(signals: &[SignalId], marks: &mut [bool])
    ensures { (s : ℕ) → mark_at marks.new s ≡ (mark_at marks.old s || (nat_lt s (length marks.old) && is_member s signals.now)) }
{
    for signal in signals {
        mark_one(*signal, marks);
    }
}

// For each signal whether it is a register or an input.
fn held_of(alloc: Global, design: &Flat) -> Result<Vec<bool>, NoMemory>
    ensures long { IfOk result (λ held. length held.items ≡ length design.now.signals.items) }
    ensures held { IfOk result (λ held. (s : ℕ) → mark_at held.items s
        ≡ ((nat_lt s (length design.now.signals.items) && is_member s design.now.registers.items)
        || (nat_lt s (length design.now.signals.items) && is_member s design.now.inputs.items))) }
{
    let mut held = vec![in alloc; false; design.signals.len()]?;
    mark(&design.registers, &mut held);
    mark(&design.inputs, &mut held);
    Ok(held)
}

// Whether a wire may stand at another place: it stands at its own one, where it needn't stay.
fn may_share(wire: usize, stays: &[bool], slots: &[u32]) -> bool
    requires wire { wire < length slots.now }
    requires long { length stays.now ≡ length slots.now }
    ensures { result ≡ ((slice_index slots.now wire == wire + 1) && not (mark_at stays.now wire)) }
{
    slots[wire] as usize == wire + 1 && !stays[wire]
}

// Marks the signal whose own place this is.
fn stay(slot: u32, stays: &mut [bool])
    requires some { 1 ≤ slot }
    requires there { slot ≤ length stays.old }
    ensures long { length stays.new ≡ length stays.old }
    ensures marks { (s : ℕ) → mark_at stays.new s ≡ (mark_at stays.old s || (s == slot - 1)) }
{
    stays[slot as usize - 1] = true;
}

// Lets the wire of a node stand where a signal does, where the node only names that one, which stays there from then on.
fn share(design: &Flat, place: usize, widths: &[u8], stays: &mut [bool], slots: &mut [u32])
    requires there { place < length design.now.nodes.items }
    requires widths { widths.now ≡ signal_widths design.now.signals.items }
    requires marked { AreMarked design.now slots.old stays.old }
    requires shared { AreShared design.now slots.old }
    ensures marked { AreMarked design.now slots.new stays.new }
    ensures shared { AreShared design.now slots.new }
{
    let Some(named) = name_given(&design.nodes[place], widths) else {
        return;
    };
    let wire = named.wire.index();
    let slot = slots[named.signal.index()];
    if may_share(wire, stays, slots) {
        slots[wire] = slot;
        stay(slot, stays);
    }
}

/// Where each signal stands: at a place of its own, one above its number, or where the one does of which it is only another name. Want of
/// memory is `NoMemory`.
pub fn slots_of(
    alloc: Global,
    linked: &Linked,
    own: Vec<u32>,
    widths: &[u8],
) -> Result<Vec<u32>, NoMemory>
    requires own { own.items ≡ range_with_len 1 (length linked.now.design.signals.items) }
    requires widths { widths.now ≡ signal_widths linked.now.design.signals.items }
    ensures { IfOk result (λ slots. AreShared linked.now.design slots.items) }
{
    let mut slots = own;
    let mut stays = held_of(alloc, &linked.design)?;
    for k in &linked.order {
        share(&linked.design, k.index(), widths, &mut stays, &mut slots);
    }
    Ok(slots)
}

// Puts the number of a node behind others, where the node leaves something to do.
fn keep(
    k: NodeId,
    node: &Node,
    widths: &[u8],
    slots: &[u32],
    order: &mut Vec<NodeId>,
) -> Result<(), NoMemory>
    ensures { OnOk result (order.new.items ≡ order.old.items ++ (if is_shared widths.now slots.now (node_of node.now) then [] else (k ∷ []))) }
{
    if is_shared(node, widths, slots) {
        return Ok(());
    }
    order.push(k)?;
    Ok(())
}

/// The order of the nodes, but for those that leave nothing to do, since their wire stands where the signal does that they name. Want of
/// memory is `NoMemory`.
pub fn kept_of(
    alloc: Global,
    linked: &Linked,
    widths: &[u8],
    slots: &[u32],
) -> Result<Vec<NodeId>, NoMemory>
    ensures in_range { IfOk result (λ order. All (λ k. k < length linked.now.design.nodes.items) order.items) }
    ensures kept { IfOk result (λ order. order.items ≡ kept widths.now slots.now (map node_of linked.now.design.nodes.items) linked.now.order.items) }
{
    let mut order = Vec::with_capacity(alloc, linked.order.len())?;
    for k in &linked.order {
        keep(
            *k,
            &linked.design.nodes[k.index()],
            widths,
            slots,
            &mut order,
        )?;
    }
    Ok(order)
}
