// The units of a tree of instances to the one design in order, or the fault.
ghost use Rattle.std.specs.Prelude.{◌≡◌, ◌<◌, ◌≤◌, All, ℕ, IfOk, MatchResult, length, map};
ghost use Rattle.ls_text.specs.Texts.{Grows};
ghost use Rattle.ls_text.specs.declared.at.At.TheVariants.{Edit};
ghost use Rattle.typed_ir.specs.Linkeds.{flat};
ghost use Rattle.typed_ir.specs.Shapes.{AreOf};
ghost use Rattle.typed_ir.specs.Trees.{Instances, flat_of_tree};
ghost use Rattle.comb_order.specs.Loops.{HasNoLoop};
ghost use Rattle.comb_order.specs.Refusals.{NodeBefore};
ghost use Rattle.link.specs.Faults.{HasNoLinkFault, IsLinkFault};
ghost use Rattle.link.specs.Listings.{IsTreeOf, all_parts};
ghost use Rattle.ls_text.specs.TextViews.{text_of};
ghost use Rattle.link.specs.Names.{node_text};

use crate::flattening::{are_few, flattened};
use crate::naming::{named, texts_of};
use comb_order::{OrderRefusal, order};
use ls_text::{At, Fault, NameList, Names, NoMemory, Refusal};
use std::alloc::Global;
use std::sync::Arc;
use typed_ir::{Flat, InstanceTree, Linked, NodeId, Unit};

/// How many nodes a design may have.
pub const NODE_LIMIT: usize = 1_048_576;

// The fault of a loop of these nodes.
#[tactic(auto, using(ls_text::proofs::Growth::grows_none))]
fn loop_fault(
    alloc: Global,
    names: &mut Names,
    design: &Flat,
    circle: &[NodeId],
) -> Result<Fault, NoMemory>
    ensures fault { IfOk result (λ f. f ≡ record { code = 39; at = Edit; names = f.names }) }
    ensures texts { IfOk result (λ f. map (text_of names.new) f.names ≡ map (node_text names.old (flat design.now)) circle.now) }
    ensures within { IfOk result (λ f. All (λ name. name.0 < length names.new) f.names) }
    ensures grows { Grows names.old names.new }
{
    let texts = texts_of(alloc, names, design, circle)?;
    let ids = named(alloc, names, &texts)?;
    Ok(Fault {
        code: 39,
        at: At::Edit,
        names: NameList::new(ids),
    })
}

// The design with an order of its nodes, or the fault of their loop.
#[tactic(auto, using(ls_text::proofs::Growth::grows_none, crate::proofs::Faulty::no_memory_left))]
fn in_order(alloc: Global, names: &mut Names, design: Flat) -> Result<Linked, Refusal>
    ensures design { IfOk result (λ linked. linked.design ≡ design) }
    ensures exactly { MatchResult result (λ _. HasNoLoop (NodeBefore (flat design).nodes) (length (flat design).nodes))
        (λ refusal. (most : ℕ) → length (flat design).nodes ≤ most → IsLinkFault most names.old names.new (flat design) refusal) }
    ensures grows { Grows names.old names.new }
{
    match order(alloc, &design) {
        Ok(order) => Ok(Linked { design, order }),
        Err(OrderRefusal::Loop(circle)) => {
            match loop_fault(alloc, names, &design, circle.nodes()) {
                Ok(fault) => Err(Refusal::Fault(fault)),
                Err(_) => Err(Refusal::NoMemory),
            }
        }
        Err(OrderRefusal::NoMemory) => Err(Refusal::NoMemory),
    }
}

/// The same as `link`, with at most so many nodes.
#[tactic(auto, using(ls_text::proofs::Growth::grows_none, crate::proofs::Faulty::no_memory_left))]
pub fn link_within(
    alloc: Global,
    names: &mut Names,
    most: usize,
    tree: &InstanceTree,
    units: &[Arc<Unit, Global>],
) -> Result<Linked, Refusal>
    requires { AreOf tree.now.instances.items 0 tree.now.instances.items (all_parts units.now) }
    ensures linked { IfOk result (λ linked. (t : Instances) → IsTreeOf tree.now.instances.items (all_parts units.now) t
        → flat linked.design ≡ flat_of_tree t) }
    ensures exactly { MatchResult result
        (λ _. (t : Instances) → IsTreeOf tree.now.instances.items (all_parts units.now) t → HasNoLinkFault most (flat_of_tree t))
        (λ refusal. (t : Instances) → IsTreeOf tree.now.instances.items (all_parts units.now) t
        → IsLinkFault most names.old names.new (flat_of_tree t) refusal) }
    ensures grows { Grows names.old names.new }
{
    if !are_few(units, most) {
        return Err(Refusal::Fault(Fault {
            code: 40,
            at: At::Edit,
            names: NameList::new(Vec::new(alloc)),
        }));
    }
    let design = match flattened(alloc, tree, units) {
        Ok(design) => design,
        Err(_) => return Err(Refusal::NoMemory),
    };
    in_order(alloc, names, design)
}

/// The design of a tree of instances with these units, each unit copied out at each instance (IEEE Std 1364-2005, 12.1.2 and 12.3.9), with
/// an order of its nodes. At most 1,048,576 nodes.
///
/// Faults, at the edit: 40 TooMany where there are more nodes, without names; else 39 CombLoop, with the names of the nodes of the loop. Else
/// want of memory, also past 2^32 signals or instances. The table of names keeps all it has.
pub fn link(
    alloc: Global,
    names: &mut Names,
    tree: &InstanceTree,
    units: &[Arc<Unit, Global>],
) -> Result<Linked, Refusal>
    requires { AreOf tree.now.instances.items 0 tree.now.instances.items (all_parts units.now) }
    ensures linked { IfOk result (λ linked. (t : Instances) → IsTreeOf tree.now.instances.items (all_parts units.now) t
        → flat linked.design ≡ flat_of_tree t) }
    ensures exactly { MatchResult result
        (λ _. (t : Instances) → IsTreeOf tree.now.instances.items (all_parts units.now) t → HasNoLinkFault 1048576 (flat_of_tree t))
        (λ refusal. (t : Instances) → IsTreeOf tree.now.instances.items (all_parts units.now) t
        → IsLinkFault 1048576 names.old names.new (flat_of_tree t) refusal) }
    ensures grows { Grows names.old names.new }
{
    link_within(alloc, names, NODE_LIMIT, tree, units)
}
