// From files to the design of a version, by the units that a registry holds.
ghost use Rattle.std.specs.Prelude.{◌≡◌, ◌≤◌, ◌<◌, ◌+◌, ◌++◌, Ok, List, true, length, IfOk, IfErr, IfSome, OnErr};
ghost use Rattle.std.specs.List.{All};
ghost use Rattle.std.specs.Global.{Global};
ghost use Rattle.std.specs.declared.sync.Arc.{Arc};
ghost use Rattle.ls_text.specs.Readings.{CanShow};
ghost use Rattle.ls_text.specs.Texts.{Grows};
ghost use Rattle.ls_text.specs.declared.refusal.Refusal.{Refusal};
ghost use Rattle.typed_ir.specs.declared.unit.Unit.{Unit as ModuleUnit};
ghost use Rattle.typed_ir.specs.Shapes.{AreOf};
ghost use Rattle.link.specs.Listings.{all_parts};
ghost use Rattle.module_registry.specs.declared.build_job.BuildJob.{BuildJob};
ghost use Rattle.module_registry.specs.Entries.{ensured, is_among, keys_of, missing};
ghost use Rattle.module_registry.specs.Keys.{jobs_of};
ghost use Rattle.module_registry.specs.Views.{entries_of};
ghost use Rattle.unit_build.specs.Building.{built};
ghost use Rattle.cycle_eval.specs.Designs.{design_flat};
ghost use Rattle.version_swap.specs.Held.{AreHeldUnder, AreUnder, IsKeyUnder};
ghost use Rattle.version_swap.specs.JobsUnder.{IsJobUnder};
ghost use Rattle.version_swap.specs.Behind.{design_of};
ghost use Rattle.version_swap.specs.DesignFaults.{IsDesignOfUnits, IsRefusedOfUnits};
ghost use Rattle.version_swap.specs.Made.{MadeBehind};
ghost use Rattle.version_swap.specs.Plans.{IsPlanRefusal, Plans};

use crate::finding::found;
use crate::keys::{first_keys, keys_of};
use crate::units::{designed, units_of};
use crate::version::Version;
use cycle_eval::Design;
use ls_text::{NameId, Names, Refusal, SourceFile};
use module_registry::{Forge, Key, Registry};
use std::alloc::Global;
use typed_ir::InstanceTree;

// The design of instances, by the units that are held under their keys.
fn of_units(
    alloc: Global,
    names: &mut Names,
    registry: &Registry,
    tree: &InstanceTree,
    keys: &[Key],
) -> Result<Design, Refusal>
    requires among { All (λ k. is_among k (keys_of (entries_of registry.now)) ≡ true) keys.now }
    requires stand { (units : List (Arc ModuleUnit Global)) → AreUnder (entries_of registry.now) keys.now units
        → AreOf tree.now.instances.items 0 tree.now.instances.items (all_parts units) }
    ensures design { IfOk result (λ d. IsDesignOfUnits tree.now.instances.items (entries_of registry.now) keys.now (design_flat d)) }
    ensures refused { IfErr result (IsRefusedOfUnits names.old names.new tree.now.instances.items (entries_of registry.now) keys.now) }
    ensures grows { Grows names.old names.new }
{
    let units = units_of(alloc, registry, keys)?;
    designed(alloc, names, tree, &units)
}

/// The design of files with the distinct keys of its instances, or the first fault. The units of those keys that the registry doesn't hold are
/// made; behind a refusal it holds what it held.
pub fn version<R, F: Forge<R>>(
    rt: &R,
    alloc: Global,
    names: &mut Names,
    registry: &mut Registry,
    forge: &mut F,
    files: &[SourceFile],
    top: Option<NameId>,
    clock: NameId,
) -> Result<Version, Refusal>
    requires files { length files.now ≤ 256 }
    requires texts { All (λ f. length f.text ≤ 4194304) files.now }
    requires top { IfSome top (λ n. n.0 < length names.old) }
    requires clock { clock.0 < length names.old }
    requires held { AreHeldUnder names.old (entries_of registry.old) }
    requires builds { (job : BuildJob) → F.builds job ≡ built job }
    requires ready { F.ready rt.now }
    ensures planned { IfOk result (λ v. Plans names.new files.now top clock (Ok (design_of v.design v.keys.items))) }
    ensures refused { IfErr result (IsPlanRefusal names.new files.now top clock) }
    ensures known { IfErr result (CanShow (length names.new)) }
    ensures keyed { IfOk result (λ v. All (IsKeyUnder names.new) v.keys.items) }
    ensures jobs { IfOk result (λ v. All (IsJobUnder names.new) (jobs_of v.keys.items)) }
    ensures held { AreHeldUnder names.new (entries_of registry.new) }
    ensures ensured { IfOk result (λ v. ensured built (entries_of registry.old) v.keys.items ≡ Ok (entries_of registry.new)) }
    ensures stays { OnErr result (entries_of registry.new ≡ entries_of registry.old) }
    ensures made { IfOk result (λ v. F.made forge.new ≡ F.made forge.old ++ jobs_of (missing (keys_of (entries_of registry.old)) v.keys.items)) }
    ensures made_behind { IfErr result (MadeBehind files.now top clock (keys_of (entries_of registry.old)) (F.made forge.old) (F.made forge.new)) }
    // Where a later step refuses the version, these are those that were made.
    ensures made_before { IfOk result (λ _. (refusal : Refusal) → MadeBehind files.now top clock (keys_of (entries_of registry.old))
        (F.made forge.old) (F.made forge.new) refusal) }
    ensures built { IfOk result (λ v. v.counts.built ≡ length (missing (keys_of (entries_of registry.old)) v.keys.items)) }
    ensures kept { IfOk result (λ v. v.counts.kept + v.counts.built ≡ length v.keys.items) }
    ensures grows { Grows names.old names.new }
{
    let found = found(alloc, names, files, top, clock)?;
    let keys = keys_of(alloc, names, found.jobs)?;
    let first = first_keys(alloc, &keys)?;
    let held = registry.len();
    let counts = registry.ensure(rt, alloc, forge, &first)?;
    match of_units(alloc, names, registry, &found.tree, &keys) {
        Ok(design) => Ok(Version {
            design,
            keys: first,
            counts,
        }),
        Err(refusal) => {
            registry.cut(held);
            Err(refusal)
        }
    }
}
