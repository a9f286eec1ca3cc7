// The tree of a design: its instances as the designs above see them.
ghost use Rattle.std.specs.Prelude.{◌≡◌, ◌<◌, length, map, All, IfOk};
ghost use Rattle.verilog_ast.specs.Views.{declarations_of};
ghost use Rattle.ls_text.specs.Texts.{Grows};
ghost use Rattle.ls_text.specs.Answers.{Answers};
ghost use Rattle.gen_unroll.specs.Views.{block_of};
ghost use Rattle.elaborate.specs.Jobs.{standing_of};
ghost use Rattle.ls_text.specs.TextViews.{text_items};
ghost use Rattle.elaborate.specs.TreeViews.{IsSeen, instance_view, language_limits, tree_view};
ghost use Rattle.elaborate.specs.Trees as t;

use crate::designing::elaborate_within;
use crate::limits::Limits;
use crate::standing::StandingInstance;
use gen_unroll::{Block, full_text};
use ls_text::{NameId, Names, NoMemory, Refusal};
use std::alloc::Global;
use typed_ir::{ConstList, Instance, InstanceId, InstanceName, InstanceTree, PortList};
use verilog_ast::Module;

// The blocks of the module that an instance stands in.
#[tactic(auto, using(crate::proofs::Instances::around))]
fn blocks_around(all: &[StandingInstance], parent: Option<InstanceId>) -> &[Block]
    ensures { map block_of result.now ≡ t.blocks_around (map standing_of all.now) parent }
{
    match parent {
        None => &[],
        Some(parent) => match all.get(parent.index()) {
            None => &[],
            Some(found) => &found.job.visited.blocks,
        },
    }
}

// What each instance is called in the one that it stands in.
fn texts_of(
    alloc: Global,
    names: &Names,
    all: &[StandingInstance],
) -> Result<Vec<Vec<u8>>, NoMemory>
    ensures { IfOk result (λ texts. map text_items texts.items ≡ map (t.called names.now (map standing_of all.now)) (map standing_of all.now)) }
{
    let mut texts = Vec::new(alloc);
    for one in all {
        let blocks = blocks_around(all, one.parent);
        let text = full_text(alloc, names, blocks, one.block, one.name.name)?;
        texts.push(text)?;
    }
    Ok(texts)
}

// An instance of this name, as the designs above see it.
#[tactic(auto, using(crate::proofs::Instances::is_seen))]
fn seen(alloc: Global, name: NameId, one: &StandingInstance) -> Result<Instance, NoMemory>
    ensures { IfOk result (λ i. IsSeen name (standing_of one.now) i) }
{
    let visited = &one.job.visited;
    let parameters = Vec::from_slice(alloc, &visited.checks.parameters)?;
    let ports = Vec::from_slice(alloc, &visited.ports)?;
    Ok(Instance {
        place: InstanceName {
            parent: one.parent,
            name,
        },
        of_module: one.job.instantiated,
        parameters: ConstList::new(parameters),
        clock: one.job.clock,
        ports: PortList::new(ports),
    })
}

// All of them, each called by its text.
#[tactic(auto, using(crate::proofs::Instances::seen))]
fn all_seen(
    alloc: Global,
    names: &mut Names,
    texts: &[Vec<u8>],
    all: &[StandingInstance],
) -> Result<Vec<Instance>, NoMemory>
    requires { length texts.now ≡ length all.now }
    ensures instances { IfOk result (λ is. map (instance_view names.new) is.items ≡ t.seen_under (map text_items texts.now) (map standing_of all.now)) }
    ensures named { IfOk result (λ is. All (λ i. i.place.name.0 < length names.new) is.items) }
    ensures grows { Grows names.old names.new }
{
    let mut instances = Vec::new(alloc);
    let mut rest = texts;
    for one in all {
        let Some((text, behind)) = rest.split_first() else {
            return Ok(instances);
        };
        let name = names.intern(text)?;
        let instance = seen(alloc, name, one)?;
        instances.push(instance)?;
        rest = behind;
    }
    Ok(instances)
}

// The instances that stand there, each called by its text, which the table of names gets.
#[tactic(auto, using(crate::proofs::Instances::seen_all, crate::proofs::Instances::same_length))]
fn instances_of(
    alloc: Global,
    names: &mut Names,
    standing: &[StandingInstance],
) -> Result<Vec<Instance>, NoMemory>
    ensures instances { IfOk result (λ is. map (instance_view names.new) is.items ≡ t.all_seen names.old (map standing_of standing.now)) }
    ensures named { IfOk result (λ is. All (λ i. i.place.name.0 < length names.new) is.items) }
    ensures grows { Grows names.old names.new }
{
    let texts = texts_of(alloc, names, standing)?;
    all_seen(alloc, names, &texts, standing)
}

/// The same as `elaborate`, within these limits.
#[tactic(auto, unfolding(crate::specs::Trees::tree), using(crate::proofs::Instances::tree_depth_first, crate::proofs::Instances::tree_seen))]
pub fn tree_within(
    alloc: Global,
    names: &mut Names,
    limits: Limits,
    all: &[Module],
    top: NameId,
    clock: NameId,
) -> Result<InstanceTree, Refusal>
    ensures tree { Answers result (tree_view names.new) (t.tree limits names.old (declarations_of all.now) top.0 clock.0) }
    ensures named { IfOk result (λ tree. All (λ i. i.place.name.0 < length names.new) tree.instances.items) }
    ensures grows { Grows names.old names.new }
{
    let standing = elaborate_within(alloc, limits, all, top, clock)?;
    let instances = instances_of(alloc, names, &standing)?;
    Ok(InstanceTree { instances })
}

/// The instances of the design of these modules, with this top, and with the top's port of this name as its clock where it has one
/// (IEEE Std 1364-2005, 12.1 to 12.4). At most 4,096 modules, 65,536 instances, 256 ports of the top, 65,536 turns of the loops of a
/// module, and a depth of 64.
///
/// Faults, the first of: 21 TwoModules and 40 TooMany at a module's name, 22 NoTop; then from the top down those of each module, step by
/// step in the order of its text (20 NoModule, 24 BadParam, 27 NoPort, 28 PortTwice, 30 NameTwice, 33 BadTarget, 41 GenLimit and those of
/// expressions), 40 at a port of the top, 37 ClockMisuse, and 23 RecursiveInstance and 40 at an instance. Else want of memory. The table of
/// names keeps all it has.
pub fn elaborate(
    alloc: Global,
    names: &mut Names,
    modules: &[Module],
    top: NameId,
    clock: NameId,
) -> Result<InstanceTree, Refusal>
    ensures tree { Answers result (tree_view names.new) (t.tree language_limits names.old (declarations_of modules.now) top.0 clock.0) }
    ensures named { IfOk result (λ tree. All (λ i. i.place.name.0 < length names.new) tree.instances.items) }
    ensures grows { Grows names.old names.new }
{
    tree_within(alloc, names, Limits::LANGUAGE, modules, top, clock)
}
