// What is linked from the units of modules is the flat design of the modules.
ghost use Rattle.std.specs.Prelude.{◌≡◌, ℕ, false, true, List, ◌∷◌, length, map, Ok};
ghost use Rattle.std.specs.List.{AllZip};
ghost use Rattle.typed_ir.specs.Cycles.{Flat};
ghost use Rattle.typed_ir.specs.Orders.{Each, Member, at_or};
ghost use Rattle.verilog_ast.specs.declared.module.Module.{Module};
ghost use Rattle.verilog_ast.specs.Views.{declarations_of};
ghost use Rattle.typed_ir.specs.declared.instance.Instance.{Instance};
ghost use Rattle.typed_ir.specs.declared.unit_parts.UnitParts.{UnitParts};
ghost use Rattle.typed_ir.specs.Shapes.{AreOf};
ghost use Rattle.typed_ir.specs.Trees.{Instances, flat_of_tree};
ghost use Rattle.gen_unroll.specs.Unrolled.{turn_limit};
ghost use Rattle.elaborate.specs.declared.limits.Limits.{Limits};
ghost use Rattle.elaborate.specs.Elaborated.{Standing, elaborated};
ghost use Rattle.elaborate.specs.Trees.{all_seen};
ghost use Rattle.elaborate.specs.TreeViews.{instance_view};
ghost use Rattle.comb_order.specs.Loops.{IsLoop};
ghost use Rattle.comb_order.specs.Refusals.{NodeBefore};
ghost use Rattle.link.specs.Listings.{IsTreeOf};
ghost use Rattle.link.specs.Names.{IsShown, has_target};
ghost use Rattle.module_registry.specs.declared.build_job.BuildJob.{BuildJob};
ghost use Rattle.unit_jobs.specs.Jobs.{InstanceJob, tree_jobs};
ghost use Rattle.unit_jobs.specs.JobViews.{job_view};
ghost use Rattle.version_swap.specs.JobUnits.{IsUnitOf};
ghost use Rattle.version_swap.specs.BuiltCopies.{AreBuilt};
ghost use Rattle.version_swap.specs.Copies.{Copies};
ghost use Rattle.version_swap.specs.DesignCopies.{NameTables, AreCopiesIn};
ghost use Rattle.version_swap.specs.Flat.{flat};
ghost use Rattle.version_swap.specs.TableCopies.{IsTableOf};

/// The flat design of a tree of units that are built from jobs is that of the modules of these jobs, each copied out where it stands.
#[tactic(none)]
pub fn linked_units_are_the_flat_design()
    ensures linked { (xs : List Instance) (jobs : List BuildJob) (us : List UnitParts) (copies : Copies) (tree : Instances) → IsTableOf xs jobs copies
        → AllZip IsUnitOf jobs us → AreOf xs 0 xs us → IsTreeOf xs us tree → flat_of_tree tree ≡ flat copies }
    ensures some { (xs : List Instance) (jobs : List BuildJob) (us : List UnitParts) (tree : Instances) → length us ≡ length xs → IsTreeOf xs us tree
        → AllZip IsUnitOf jobs us → (copies : Copies) × IsTableOf xs jobs copies }
    ensures one { (xs : List Instance) (jobs : List BuildJob) (a b : Copies) → IsTableOf xs jobs a → IsTableOf xs jobs b → a ≡ b }
    ensures trees { (copies : Copies) (tree : Instances) → AreBuilt copies tree → flat_of_tree tree ≡ flat copies }
{}

/// The copies that the instances of a design have by their jobs are those of its parsed modules: each is of the module that its instance names,
/// unrolled under the overrides of this instance. So what is linked is the flat design of these copies. Modules are read with `t.texts` where
/// instances are called, and with `t.others` where signals within blocks are; the names of instances stand in `t.known`, those of such signals
/// in `t.words`.
#[tactic(none)]
pub fn copies_are_those_of_the_design()
    ensures design { (l : Limits) (t : NameTables) (ms : List Module) (top clock : ℕ) (all : List Standing) (xs : List Instance)
        (jobs : List InstanceJob) (js : List BuildJob) (copies : Copies)
        → l.turns ≡ turn_limit → elaborated l (declarations_of ms) top clock ≡ Ok all → map (instance_view t.known) xs ≡ all_seen t.texts all
        → tree_jobs t.others ms xs ≡ Ok jobs → map (job_view t.words) js ≡ jobs → IsTableOf xs js copies
        → AreCopiesIn l.turns (declarations_of ms) t xs all copies }
    ensures linked { (l : Limits) (t : NameTables) (ms : List Module) (top clock : ℕ) (all : List Standing) (xs : List Instance)
        (jobs : List InstanceJob) (js : List BuildJob) (us : List UnitParts) (tree : Instances)
        → l.turns ≡ turn_limit → elaborated l (declarations_of ms) top clock ≡ Ok all → map (instance_view t.known) xs ≡ all_seen t.texts all
        → tree_jobs t.others ms xs ≡ Ok jobs → map (job_view t.words) js ≡ jobs → AllZip IsUnitOf js us → IsTreeOf xs us tree
        → (copies : Copies) × (AreCopiesIn l.turns (declarations_of ms) t xs all copies × (flat_of_tree tree ≡ flat copies)) }
{}

/// Each node of the flat design of units that are built from jobs is told by a target of its own, where it has any: a block without a fault tells
/// one of its own targets, and the unit's signals keep their bits where it stands. So each node of a loop has a target, by which it is named.
#[tactic(none)]
pub fn nodes_are_told_by_their_own_targets()
    ensures shown { (copies : Copies) (tree : Instances) → AreBuilt copies tree → Each IsShown (flat copies).nodes }
    ensures linked { (xs : List Instance) (jobs : List BuildJob) (us : List UnitParts) (tree : Instances) → AllZip IsUnitOf jobs us
        → AreOf xs 0 xs us → IsTreeOf xs us tree → Each IsShown (flat_of_tree tree).nodes }
    ensures named { (xs : List Instance) (jobs : List BuildJob) (us : List UnitParts) (tree : Instances) (design : Flat) (first : ℕ) (rest : List ℕ)
        → AllZip IsUnitOf jobs us → AreOf xs 0 xs us → IsTreeOf xs us tree → design ≡ flat_of_tree tree
        → IsLoop (NodeBefore design.nodes) (length design.nodes) first rest
        → (k : ℕ) → Member k (first ∷ rest) → at_or has_target false design.nodes k ≡ true }
{}
