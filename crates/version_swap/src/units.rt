// From the units that a registry holds to a design that can be run.
ghost use Rattle.std.specs.Prelude.{◌≡◌, true, IfOk, IfErr};
ghost use Rattle.std.specs.List.{All};
ghost use Rattle.ls_text.specs.Texts.{Grows};
ghost use Rattle.module_registry.specs.Entries.{is_among, keys_of};
ghost use Rattle.module_registry.specs.Views.{entries_of};
ghost use Rattle.typed_ir.specs.Shapes.{AreOf};
ghost use Rattle.typed_ir.specs.Trees.{Instances, flat_of_tree};
ghost use Rattle.link.specs.Listings.{IsTreeOf, all_parts};
ghost use Rattle.cycle_eval.specs.Designs.{design_flat};
ghost use Rattle.version_swap.specs.Held.{AreUnder};
ghost use Rattle.version_swap.specs.DesignFaults.{CanRun, IsDesignFault};

use cycle_eval::Design;
use link::link;
use ls_text::{Names, NoMemory, Refusal};
use module_registry::{Key, Registry};
use std::alloc::Global;
use std::sync::Arc;
use typed_ir::{InstanceTree, Unit};

/// The units that are held under keys, one for each.
pub fn units_of(
    alloc: Global,
    registry: &Registry,
    keys: &[Key],
) -> Result<Vec<Arc<Unit, Global>>, NoMemory>
    requires { All (λ k. is_among k (keys_of (entries_of registry.now)) ≡ true) keys.now }
    ensures { IfOk result (λ us. AreUnder (entries_of registry.now) keys.now us.items) }
{
    let mut units = Vec::with_capacity(alloc, keys.len())?;
    for key in keys {
        match registry.unit(key)? {
            Some(unit) => units.push(unit)?,
            None => unreachable!(),
        }
    }
    Ok(units)
}

/// The design of a tree of instances with these units, ready to run, or its fault: of linking, and then that its registers take too much room.
pub fn designed(
    alloc: Global,
    names: &mut Names,
    tree: &InstanceTree,
    units: &[Arc<Unit, Global>],
) -> Result<Design, Refusal>
    requires { AreOf tree.now.instances.items 0 tree.now.instances.items (all_parts units.now) }
    ensures design { IfOk result (λ d. (t : Instances) → IsTreeOf tree.now.instances.items (all_parts units.now) t
        → (design_flat d ≡ flat_of_tree t) × CanRun (flat_of_tree t)) }
    ensures refused { IfErr result (λ e. (t : Instances) → IsTreeOf tree.now.instances.items (all_parts units.now) t
        → IsDesignFault names.old names.new (flat_of_tree t) e) }
    ensures grows { Grows names.old names.new }
{
    let linked = link(alloc, names, tree, units)?;
    Design::make(alloc, linked)
}
