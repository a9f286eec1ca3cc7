// A row's text to its design, or to the first fault in it.
use crate::design::Design;
use crate::modules::modules_of;
use crate::standing::stand_in;
use crate::stock::Stock;
use crate::units::{each_once, ensure, keys_of, units_of};
use crate::way::Way;
use elaborate::elaborate;
use link::{link, link_within};
use ls_text::{NameId, Names, Refusal};
use module_registry::{Forge, Key, Registry};
use std::alloc::Global;
use std::sync::Arc;
use std::thread::Threads;
use typed_ir::{InstanceTree, Linked, Unit};
use unit_jobs::jobs_of;
use verilog_ast::Module;

// What units are linked to, with at most so many nodes where a limit is given; nothing where they don't stand in the tree.
fn linked_of(
    alloc: Global,
    names: &mut Names,
    most: Option<usize>,
    tree: &InstanceTree,
    units: &[Arc<Unit, Global>],
) -> Result<Option<Linked>, Refusal> {
    if !stand_in(alloc, tree, units)? {
        return Ok(None);
    }
    let linked = match most {
        Some(most) => link_within(alloc, names, most, tree, units)?,
        None => link(alloc, names, tree, units)?,
    };
    Ok(Some(linked))
}

// What the units that are held under these keys, one for each instance, are linked to.
fn linked_units(
    alloc: Global,
    names: &mut Names,
    most: Option<usize>,
    tree: &InstanceTree,
    registry: &Registry,
    keys: &[Key],
) -> Result<Option<Linked>, Refusal> {
    let units = units_of(alloc, registry, keys)?;
    linked_of(alloc, names, most, tree, &units)
}

// The design of a tree whose instances have these keys.
fn design_with<R: Threads + Sync>(
    rt: &R,
    alloc: Global,
    names: &mut Names,
    stock: &mut Stock,
    most: Option<usize>,
    tree: &InstanceTree,
    instances: &[Key],
) -> Result<Option<Design>, Refusal> {
    let keys = each_once(alloc, instances)?;
    let ensured = ensure(rt, alloc, stock, &keys)?;
    match linked_units(alloc, names, most, tree, &stock.registry, instances)? {
        Some(linked) => Ok(Some(Design {
            keys,
            ensured,
            linked,
        })),
        None => Ok(None),
    }
}

// The tree of these modules, and the key of each instance.
fn tree_of(
    alloc: Global,
    names: &mut Names,
    alike: bool,
    modules: Vec<Module>,
    top: NameId,
    clock: NameId,
) -> Result<(InstanceTree, Vec<Key>), Refusal> {
    let tree = elaborate(alloc, names, &modules, top, clock)?;
    let jobs = jobs_of(alloc, names, modules, &tree)?;
    let keys = keys_of(alloc, names, alike, jobs)?;
    Ok((tree, keys))
}

// The design of a text.
fn design_in<R: Threads + Sync>(
    rt: &R,
    alloc: Global,
    names: &mut Names,
    stock: &mut Stock,
    way: Way,
    text: &[u8],
) -> Result<Option<Design>, Refusal> {
    let top = names.intern(b"top")?;
    let clock = names.intern(b"clk")?;
    let modules = modules_of(alloc, names, text)?;
    let (tree, keys) = tree_of(alloc, names, way.alike, modules, top, clock)?;
    design_with(rt, alloc, names, stock, way.most, &tree, &keys)
}

/// The design of a text whose top is `top` and whose clock is `clk`, or the first fault: of the text, of elaboration, of a unit, of linking.
/// What came in for a design that is refused is taken back. Nothing where the units don't stand in the tree, which is a fault of the program.
pub fn design_of<R: Threads + Sync>(
    rt: &R,
    alloc: Global,
    names: &mut Names,
    stock: &mut Stock,
    way: Way,
    text: &[u8],
) -> Result<Option<Design>, Refusal> {
    let held = stock.registry.len();
    let design = design_in(rt, alloc, names, stock, way, text);
    if design.is_err() {
        stock.registry.cut(held);
    }
    design
}
