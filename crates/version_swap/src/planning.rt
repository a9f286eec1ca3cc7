// The next version of a design, or its first fault.
ghost use Rattle.std.specs.Prelude.{◌≡◌, ◌≤◌, ◌<◌, ◌+◌, ◌++◌, ℕ, List, [], Ok, length, option_copied, IfOk, IfErr, IfSome, OnErr};
ghost use Rattle.std.specs.List.{All};
ghost use Rattle.std.specs.Option.{option_or, unwrap_or};
ghost use Rattle.ls_text.specs.Readings.{CanShow, fault_view};
ghost use Rattle.ls_text.specs.Texts.{Grows};
ghost use Rattle.command_read.specs.Spoken.{AreOpsWithin};
ghost use Rattle.module_registry.specs.declared.build_job.BuildJob.{BuildJob};
ghost use Rattle.module_registry.specs.Entries.{ensured, keys_of, missing};
ghost use Rattle.module_registry.specs.Keys.{jobs_of};
ghost use Rattle.module_registry.specs.Views.{entries_of};
ghost use Rattle.unit_build.specs.Building.{built};
ghost use Rattle.version_swap.specs.Held.{AreHeldUnder, IsKeyUnder};
ghost use Rattle.version_swap.specs.Behind.{design_of, texts_behind};
ghost use Rattle.version_swap.specs.Files.{files_behind};
ghost use Rattle.version_swap.specs.Made.{MadeBehind};
ghost use Rattle.version_swap.specs.Operations.{AreValidBetween, IsEditRefusal};
ghost use Rattle.version_swap.specs.Plans.{Plans, too_many_fault};

use crate::file_list::FileList;
use crate::files::files_behind;
use crate::key_list::KeyList;
use crate::operations::checked;
use crate::planned::Planned;
use crate::texts::Texts;
use crate::versions::version;
use command_read::Edit;
use cycle_eval::Design;
use ls_text::{At, Fault, NameList, Names, Refusal, SourceFile};
use module_registry::{Forge, Registry};
use std::alloc::Global;

// 40, at the edit
fn too_many(alloc: Global) -> Fault
    ensures view { (names : List (List ℕ)) → fault_view names result ≡ too_many_fault }
    ensures none { result.names ≡ [] }
{
    Fault {
        code: 40,
        at: At::Edit,
        names: NameList::new(Vec::new(alloc)),
    }
}

/// The version behind an edit: the files as the edit leaves them, with their design and the distinct keys of its instances. `old` is the design
/// before it, where there is one, and `loaded` has the files that the edit loads, in line order.
///
/// The first fault, of these steps in their order: 40 at the edit above 256 files; those of the texts (10, 12 to 16, 38); of elaboration (20 to
/// 33, 37, 40, 41), 22 where no top was ever named too; of the units, in the order of the first instance of each (25, 26, 29 to 36); at the edit
/// 40 and 39 of linking, and 40 where the registers take too much room; and 50 to 55 of the first operation that breaks a condition, at its
/// line. Else want of memory. The units of those keys that the registry doesn't
/// hold are made in that order; behind a refusal it holds what it held, and what the forge has made stays made. The table of names keeps all it
/// has.
pub fn plan<R, F: Forge<R>>(
    rt: &R,
    alloc: Global,
    names: &mut Names,
    registry: &mut Registry,
    forge: &mut F,
    texts: &Texts,
    old: Option<&Design>,
    edit: &Edit,
    loaded: &[SourceFile],
) -> Result<Planned, Refusal>
    requires loads { length loaded.now ≡ length edit.now.loads }
    requires before { All (λ f. length f.text ≤ 4194304) texts.now.files }
    requires given { All (λ g. length g.file.text ≤ 4194304) edit.now.files }
    requires loaded { All (λ f. length f.text ≤ 4194304) loaded.now }
    requires top { IfSome (option_or edit.now.top texts.now.top) (λ n. n.0 < length names.old) }
    requires clock { (unwrap_or edit.now.clock texts.now.clock).0 < length names.old }
    requires operations { AreOpsWithin (length names.old) edit.now.ops }
    requires held { AreHeldUnder names.old (entries_of registry.old) }
    requires builds { (job : BuildJob) → F.builds job ≡ built job }
    requires ready { F.ready rt.now }
    // The design of the files behind the edit with the texts of its keys, or the first fault.
    ensures texts { IfOk result (λ p. p.texts ≡ texts_behind texts.now edit.now loaded.now) }
    ensures planned { IfOk result (λ p. Plans names.new p.texts.files p.texts.top p.texts.clock (Ok (design_of p.design p.keys))) }
    ensures valid { IfOk result (λ p. AreValidBetween (option_copied old.entry) p.design edit.now.ops) }
    ensures refused { IfErr result (IsEditRefusal names.new (files_behind texts.now.files edit.now.files edit.now.loads loaded.now)
        (option_or edit.now.top texts.now.top) (unwrap_or edit.now.clock texts.now.clock) (option_copied old.entry) edit.now.ops) }
    ensures known { IfErr result (CanShow (length names.new)) }
    // Each key has the text of its job, and the digest of that.
    ensures keyed { IfOk result (λ p. All (IsKeyUnder names.new) p.keys) }
    // What the registry holds.
    ensures held { AreHeldUnder names.new (entries_of registry.new) }
    ensures ensured { IfOk result (λ p. ensured built (entries_of registry.old) p.keys ≡ Ok (entries_of registry.new)) }
    ensures stays { OnErr result (entries_of registry.new ≡ entries_of registry.old) }
    // The jobs that were made are those of the keys that weren't held.
    ensures made { IfOk result (λ p. F.made forge.new ≡ F.made forge.old ++ jobs_of (missing (keys_of (entries_of registry.old)) p.keys)) }
    ensures made_behind { IfErr result (MadeBehind (files_behind texts.now.files edit.now.files edit.now.loads loaded.now)
        (option_or edit.now.top texts.now.top) (unwrap_or edit.now.clock texts.now.clock) (keys_of (entries_of registry.old))
        (F.made forge.old) (F.made forge.new)) }
    ensures built { IfOk result (λ p. p.built ≡ length (missing (keys_of (entries_of registry.old)) p.keys)) }
    ensures kept { IfOk result (λ p. p.kept + p.built ≡ length p.keys) }
    ensures grows { Grows names.old names.new }
{
    let files = files_behind(alloc, texts.files.as_slice(), edit, loaded)?;
    if files.len() > 256 {
        return Err(Refusal::Fault(too_many(alloc)));
    }
    let top = edit.top.or(texts.top);
    let clock = edit.clock.unwrap_or(texts.clock);
    let held = registry.len();
    let version = version(rt, alloc, names, registry, forge, &files, top, clock)?;
    if let Err(refusal) = checked(alloc, names, old, &version.design, edit.ops.as_slice()) {
        registry.cut(held);
        return Err(refusal);
    }
    Ok(Planned {
        texts: Texts {
            files: FileList::new(files),
            top,
            clock,
        },
        design: version.design,
        keys: KeyList::new(version.keys),
        built: version.counts.built,
        kept: version.counts.kept,
    })
}
