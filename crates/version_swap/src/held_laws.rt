// What a registry holds under a table of names, and that what is linked of it is the flat design.
ghost use Rattle.std.specs.Prelude.{◌≡◌, ℕ, false, true, List, [], ◌∷◌, length, map, take, Ok, Err, Some, IsTrue};
ghost use Rattle.std.specs.Global.{Global};
ghost use Rattle.std.specs.List.{All, AllZip};
ghost use Rattle.std.specs.declared.result.Result.{Result};
ghost use Rattle.std.specs.declared.sync.Arc.{Arc};
ghost use Rattle.sha2.specs.Sha256.{sha256};
ghost use Rattle.ls_text.specs.declared.fault.Fault.{Fault};
ghost use Rattle.ls_text.specs.Texts.{Grows, HasEachOnce};
ghost use Rattle.typed_ir.specs.Cycles.{Flat};
ghost use Rattle.typed_ir.specs.Orders.{Member, at_or};
ghost use Rattle.verilog_ast.specs.declared.module.Module.{Module};
ghost use Rattle.typed_ir.specs.declared.instance.Instance.{Instance};
ghost use Rattle.typed_ir.specs.declared.unit.Unit.{Unit as ModuleUnit};
ghost use Rattle.typed_ir.specs.Instances.{is_depth_first, parent_of};
ghost use Rattle.typed_ir.specs.Shapes.{AreOf};
ghost use Rattle.typed_ir.specs.Trees.{Instances, flat_of_tree};
ghost use Rattle.comb_order.specs.Loops.{IsLoop};
ghost use Rattle.comb_order.specs.Refusals.{NodeBefore};
ghost use Rattle.link.specs.Listings.{IsTreeOf, all_parts};
ghost use Rattle.link.specs.Names.{has_target};
ghost use Rattle.module_registry.specs.declared.build_job.BuildJob.{BuildJob};
ghost use Rattle.module_registry.specs.Building.{Built, built_all};
ghost use Rattle.module_registry.specs.Entries.{Entry, ensured, is_among, unit_under};
ghost use Rattle.module_registry.specs.Jobs.{job_text};
ghost use Rattle.module_registry.specs.Keys.{KeyData, same, jobs_of};
ghost use Rattle.unit_build.specs.Building.{built};
ghost use Rattle.version_swap.specs.JobUnits.{IsUnitOf};
ghost use Rattle.version_swap.specs.Held.{AreHeldUnder, AreUnder, HaveUnits, IsKeyUnder};
ghost use Rattle.version_swap.specs.JobsUnder.{IsJobUnder};
ghost use Rattle.version_swap.specs.Spelled.{IsSpelledUnder};
ghost use Rattle.version_swap.specs.TreeJobs.{AreJobsIn, IsFlatIn};

/// A registry holds, under a table of names, units under the keys of the jobs that they are built from: an empty one does, and it stays so
/// where keys of jobs under this table, as they are made, are ensured with a forge that builds as `built` says, where it is cut or copied, and
/// where the table grows. The text of a job is the same under each table that its table grows to.
#[tactic(none)]
pub fn registries_stay_held()
    ensures empty { (names : List (List ℕ)) (es : List Entry) → es ≡ [] → AreHeldUnder names es }
    ensures made { (names : List (List ℕ)) (job : BuildJob) (k : KeyData) → k.text ≡ job_text names job → k.digest ≡ sha256 k.text
        → k.job ≡ job → IsKeyUnder names k }
    ensures ensured { (names : List (List ℕ)) (builds : BuildJob → Result Built Fault) (es new : List Entry) (keys : List KeyData)
        → builds ≡ built → AreHeldUnder names es → All (IsKeyUnder names) keys → All (IsJobUnder names) (jobs_of keys)
        → ensured builds es keys ≡ Ok new → AreHeldUnder names new }
    ensures same { (names : List (List ℕ)) (es new : List Entry) → AreHeldUnder names es → new ≡ es → AreHeldUnder names new }
    ensures cut { (names : List (List ℕ)) (len : ℕ) (es new : List Entry) → AreHeldUnder names es → new ≡ take len es
        → AreHeldUnder names new }
    ensures grown { (old new : List (List ℕ)) (es : List Entry) → Grows old new → AreHeldUnder old es → AreHeldUnder new es }
    ensures texts { (old new : List (List ℕ)) (job : BuildJob) → Grows old new → IsJobUnder old job
        → job_text new job ≡ job_text old job }
{}

/// The unit that such a registry gives under a key with the text of a job is the one that building gives for this job, whatever job the
/// key was held with. So the units that it gives under the keys of jobs are those of the jobs. Keys of jobs of one text are equal, so no text
/// is held twice.
#[tactic(none)]
pub fn held_units_are_those_of_their_jobs()
    ensures unit { (names : List (List ℕ)) (es : List Entry) (k : KeyData) (job : BuildJob) (u : Built) → HasEachOnce names
        → AreHeldUnder names es → IsJobUnder names job → k.text ≡ job_text names job → unit_under k es ≡ Some u → built job ≡ Ok u }
    ensures units { (names : List (List ℕ)) (es : List Entry) (keys : List KeyData) (units : List (Arc ModuleUnit Global))
        → HasEachOnce names → AreHeldUnder names es → All (IsKeyUnder names) keys → All (IsJobUnder names) (jobs_of keys)
        → AreUnder es keys units → AllZip IsUnitOf (jobs_of keys) (all_parts units) }
    ensures equal { (names : List (List ℕ)) (x y : KeyData) → IsKeyUnder names x → IsKeyUnder names y
        → job_text names x.job ≡ job_text names y.job → same x y ≡ true }
{}

/// Where keys of jobs under the table are ensured and one has a fault, it is the first among all their jobs, those of held keys too, since the job
/// of a held key has none. Where they come in, each of them has a unit then, which is that of its job, and so has each key that is equal to one of
/// them.
#[tactic(none)]
pub fn held_keys_have_no_fault()
    ensures faults { (names : List (List ℕ)) (builds : BuildJob → Result Built Fault) (es : List Entry) (keys : List KeyData) (f : Fault)
        → builds ≡ built → HasEachOnce names → AreHeldUnder names es → All (IsKeyUnder names) keys → All (IsJobUnder names) (jobs_of keys)
        → ensured builds es keys ≡ Err f → built_all builds (jobs_of keys) ≡ Err f }
    ensures found { (names : List (List ℕ)) (builds : BuildJob → Result Built Fault) (es new : List Entry) (keys : List KeyData)
        → builds ≡ built → HasEachOnce names → AreHeldUnder names es → All (IsKeyUnder names) keys → All (IsJobUnder names) (jobs_of keys)
        → ensured builds es keys ≡ Ok new → HaveUnits builds new keys }
    ensures alike { (es : List Entry) (x y : KeyData) → same x y ≡ true → unit_under x es ≡ unit_under y es }
    ensures among { (builds : BuildJob → Result Built Fault) (es : List Entry) (keys : List KeyData) (k : KeyData) → HaveUnits builds es keys
        → is_among k keys ≡ true → (u : Built) × (unit_under k es ≡ Some u) }
{}

/// The jobs of a design are jobs under the table of names behind them, so their keys may be ensured. The units that a registry then gives under
/// these keys stand in the tree of the design, so they may be linked. What is linked of them, which is what each tree gives that this table of
/// instances is of, is the flat design of the parsed modules. There is one such design, whatever table of instances it is told of. Each node of
/// a loop in it has a target, by which it is named.
#[tactic(none)]
pub fn held_units_link_to_the_flat_design()
    ensures jobs { (texts known names : List (List ℕ)) (ms : List Module) (top clock : ℕ) (xs : List Instance) (js : List BuildJob)
        → AreJobsIn texts known names ms top clock xs js → All (IsJobUnder names) js }
    ensures stand { (texts known names : List (List ℕ)) (ms : List Module) (top clock : ℕ) (xs : List Instance) (js : List BuildJob)
        (keys : List KeyData) (es : List Entry) (units : List (Arc ModuleUnit Global))
        → AreJobsIn texts known names ms top clock xs js → jobs_of keys ≡ js → All (IsKeyUnder names) keys → AreHeldUnder names es
        → AreUnder es keys units → AreOf xs 0 xs (all_parts units) }
    ensures linked { (texts known names : List (List ℕ)) (ms : List Module) (top clock : ℕ) (xs : List Instance) (js : List BuildJob)
        (keys : List KeyData) (es : List Entry) (units : List (Arc ModuleUnit Global)) (design : Flat)
        → AreJobsIn texts known names ms top clock xs js → jobs_of keys ≡ js → All (IsKeyUnder names) keys → AreHeldUnder names es
        → AreUnder es keys units → IsTrue (is_depth_first (map parent_of xs))
        → ((t : Instances) → IsTreeOf xs (all_parts units) t → design ≡ flat_of_tree t)
        → IsFlatIn names ms top clock xs design }
    ensures named { (texts known names : List (List ℕ)) (ms : List Module) (top clock : ℕ) (xs : List Instance) (js : List BuildJob)
        (keys : List KeyData) (es : List Entry) (units : List (Arc ModuleUnit Global)) (design : Flat) (first : ℕ) (rest : List ℕ)
        → AreJobsIn texts known names ms top clock xs js → jobs_of keys ≡ js → All (IsKeyUnder names) keys → AreHeldUnder names es
        → AreUnder es keys units → IsTrue (is_depth_first (map parent_of xs))
        → ((t : Instances) → IsTreeOf xs (all_parts units) t → design ≡ flat_of_tree t)
        → IsLoop (NodeBefore design.nodes) (length design.nodes) first rest
        → (k : ℕ) → Member k (first ∷ rest) → at_or has_target false design.nodes k ≡ true }
    ensures one { (names : List (List ℕ)) (ms : List Module) (top clock : ℕ) (xs ys : List Instance) (a b : Flat)
        → HasEachOnce names → All (IsSpelledUnder names) ms → IsFlatIn names ms top clock xs a → IsFlatIn names ms top clock ys b → a ≡ b }
{}
