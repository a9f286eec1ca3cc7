// What doesn't change under other names.
ghost use Rattle.std.specs.Prelude.{◌≡◌, ℕ, Bool, List, [], Option, map};
ghost use Rattle.std.specs.List.{AllZip};
ghost use Rattle.std.specs.Option.{option_map};
ghost use Rattle.ls_text.specs.declared.name_id.NameId.{NameId};
ghost use Rattle.verilog_ast.specs.declared.module.Module.{Module};
ghost use Rattle.verilog_ast.specs.Expressions.{Target};
ghost use Rattle.verilog_ast.specs.Items.{ModuleInstance, ModuleItem, ModuleDeclaration};
ghost use Rattle.verilog_ast.specs.Renaming.{target_as, statement_as, instance_as as module_instance_as, item_as, declaration_as};
ghost use Rattle.verilog_ast.specs.Statements.{Statement};
ghost use Rattle.verilog_ast.specs.Views.{declaration_of};
ghost use Rattle.typed_ir.specs.declared.child_shape.ChildShape.{ChildShape};
ghost use Rattle.typed_ir.specs.declared.instance.Instance.{Instance};
ghost use Rattle.typed_ir.specs.Items.{PlacedItems, unit_of};
ghost use Rattle.width_rules.specs.declared.writer.Writer.{Writer};
ghost use Rattle.width_rules.specs.Renaming.{MeansSame, fault_as};
ghost use Rattle.width_rules.specs.Scopes.{Scope};
ghost use Rattle.gen_unroll.specs.Reaches.{Reach};
ghost use Rattle.gen_unroll.specs.Steps.{ModuleStep, blocks_in};
ghost use Rattle.gen_unroll.specs.Numbers.{SignalTable, module_table};
ghost use Rattle.gen_unroll.specs.Signals.{NamedSignal};
ghost use Rattle.gen_unroll.specs.UnitLists.{unit_signals, data_inputs, registers};
ghost use Rattle.gen_unroll.specs.UnitReaches.{unit_reach_in, unit_in_reach};
ghost use Rattle.width_rules.specs.Forms.{target_form, statement_shown};
ghost use Rattle.width_rules.specs.Mentions.{statement_reads, statement_targets};
ghost use Rattle.unit_build.specs.Instances.{item_faults, instance_items};
ghost use Rattle.statement_rules.specs.SizedItems.{plain_items, plain_initials, plain_faults};
ghost use Rattle.driver_rules.specs.DriverFaults.{driver_faults};
ghost use Rattle.module_registry.specs.declared.build_job.BuildJob.{BuildJob};
ghost use Rattle.unit_build.specs.Building.{settled_signals, built};
ghost use Rattle.unit_jobs.specs.BlockNames.{texts_within};
ghost use Rattle.unit_jobs.specs.Jobs.{tree_jobs};
ghost use Rattle.elaborate.specs.Renaming.{KeepsApart, SameReach, SpellsSame, number_as, found_as, step_as};
ghost use Rattle.unit_build.specs.BuiltModules.{Usage, module_steps, module_faults, module_items, module_initials, placed_module, built_module};
ghost use Rattle.version_swap.specs.RenamedFindings.{signal_as, table_as, shape_as, mention_as, placed_as, unit_signal_as, items_as, unit_as};
ghost use Rattle.version_swap.specs.Jobs.{IsModuleAs, AreJobsAs, instance_as};
ghost use Rattle.version_swap.specs.RenamedUnits.{usage_as, built_as};

/// The signals of a module under other names, of which no two become one, are its signals under these names, with the same numbers; so are its
/// registers and its data inputs. Where the module begins and behind each of its steps, each name in reach means what it meant.
#[tactic(none)]
pub fn names_may_change_in_signals()
    ensures tables { (f : NameId → NameId) (m : ModuleDeclaration) (steps : List ModuleStep) → KeepsApart f
        → module_table (declaration_as f m) (map (step_as f) steps) ≡ found_as f (table_as f) (module_table m steps) }
    ensures signals { (f : NameId → NameId) (in_module : ℕ) (names : List NameId) (xs : List NamedSignal)
        → unit_signals (number_as f in_module) (map f names) (map (signal_as f) xs) ≡ map (unit_signal_as f) (unit_signals in_module names xs) }
    ensures inputs { (f : NameId → NameId) (clock : Option NameId) (xs : List NamedSignal) → KeepsApart f
        → data_inputs (option_map f clock) (map (signal_as f) xs) ≡ data_inputs clock xs }
    ensures registers { (f : NameId → NameId) (settled : ℕ → Bool) (t : SignalTable) → registers settled (table_as f t) ≡ registers settled t }
    ensures beginnings { (f : NameId → NameId) (w : ℕ → Writer) (xs : List NamedSignal) (m : ModuleDeclaration) → KeepsApart f
        → SameReach f (unit_reach_in w xs m) (unit_reach_in w (map (signal_as f) xs) (declaration_as f m)) }
    ensures reaches { (f : NameId → NameId) (w : ℕ → Writer) (xs : List NamedSignal) (s : ModuleStep) (here there : Reach) → KeepsApart f
        → SameReach f here there → SameReach f (unit_in_reach w xs s here) (unit_in_reach w (map (signal_as f) xs) (step_as f s) there) }
{}

/// An item under other names, where each name means what it meant, is the same item: the same sized form, with its mentions under these names and
/// in the same order, and the same faults, which show these names. So are the connections of instances and the faults of drivers.
#[tactic(none)]
pub fn names_may_change_in_items()
    ensures reads { (f : NameId → NameId) (scope other : Scope) (k : ℕ) (x : Statement) → MeansSame f scope other
        → statement_reads other k (statement_as f x) ≡ map (mention_as f) (statement_reads scope k x) }
    ensures targets { (f : NameId → NameId) (k : ℕ) (x : Statement)
        → statement_targets k (statement_as f x) ≡ map (mention_as f) (statement_targets k x) }
    ensures shown { (f : NameId → NameId) (scope other : Scope) (x : Statement) → MeansSame f scope other
        → statement_shown other (statement_as f x) ≡ statement_shown scope x }
    ensures target_forms { (f : NameId → NameId) (scope other : Scope) (t : Target) → MeansSame f scope other
        → target_form other (target_as f t) ≡ target_form scope t }
    ensures items { (f : NameId → NameId) (scope other : Scope) (x : ModuleItem) → MeansSame f scope other
        → plain_items other (item_as f x) ≡ map (placed_as f) (plain_items scope x) }
    ensures initials { (f : NameId → NameId) (scope other : Scope) (x : ModuleItem) → MeansSame f scope other
        → plain_initials other (item_as f x) ≡ plain_initials scope x }
    ensures faults { (f : NameId → NameId) (scope other : Scope) (x : ModuleItem) → MeansSame f scope other
        → plain_faults other (item_as f x) ≡ map (fault_as f) (plain_faults scope x) }
    ensures connections { (f : NameId → NameId) (scope other : Scope) (first : ℕ) (ss : List ChildShape) (xs : List ModuleInstance) → KeepsApart f
        → MeansSame f scope other
        → instance_items other first (map (shape_as f) ss) (map (module_instance_as f) xs) ≡ map (placed_as f) (instance_items scope first ss xs) }
    ensures connection_faults { (f : NameId → NameId) (scope other : Scope) (ss : List ChildShape) (xs : List ModuleInstance) → KeepsApart f
        → MeansSame f scope other
        → item_faults other (map (shape_as f) ss) (map (module_instance_as f) xs) ≡ map (fault_as f) (item_faults scope ss xs) }
    ensures drivers { (f : NameId → NameId) (p : PlacedItems) → driver_faults (items_as f p) ≡ map (fault_as f) (driver_faults p) }
    ensures units { (f : NameId → NameId) (p : PlacedItems) → unit_of (items_as f p) ≡ unit_as f (unit_of p) }
{}

/// A module under other names, of which no two become one, with the same values of parameters, and its clock and the instances in it under these
/// names, has the same unit under these names, or the same first fault under these names.
#[tactic(none)]
pub fn names_may_change_in_units()
    ensures steps { (f : NameId → NameId) (m : ModuleDeclaration) (u : Usage) → KeepsApart f
        → module_steps (declaration_as f m) (usage_as f u) ≡ found_as f (map (step_as f)) (module_steps m u) }
    ensures settled { (f : NameId → NameId) (m : ModuleDeclaration) (t : SignalTable) (steps : List ModuleStep) → KeepsApart f
        → settled_signals (declaration_as f m) (table_as f t) (map (step_as f) steps) ≡ settled_signals m t steps }
    ensures faults { (f : NameId → NameId) (m : ModuleDeclaration) (u : Usage) (t : SignalTable) (settled : List Bool) (steps : List ModuleStep)
        → KeepsApart f
        → module_faults (declaration_as f m) (usage_as f u) (table_as f t) settled (map (step_as f) steps)
        ≡ map (fault_as f) (module_faults m u t settled steps) }
    ensures items { (f : NameId → NameId) (m : ModuleDeclaration) (u : Usage) (t : SignalTable) (settled : List Bool) (steps : List ModuleStep)
        → KeepsApart f
        → module_items (declaration_as f m) (usage_as f u) (table_as f t) settled (map (step_as f) steps)
        ≡ map (placed_as f) (module_items m u t settled steps) }
    ensures initials { (f : NameId → NameId) (m : ModuleDeclaration) (u : Usage) (t : SignalTable) (settled : List Bool) (steps : List ModuleStep)
        → KeepsApart f
        → module_initials (declaration_as f m) (usage_as f u) (table_as f t) settled (map (step_as f) steps) ≡ module_initials m u t settled steps }
    ensures placed { (f : NameId → NameId) (m : ModuleDeclaration) (u : Usage) (t : SignalTable) (settled : List Bool) (steps : List ModuleStep)
        → KeepsApart f
        → placed_module (declaration_as f m) (usage_as f u) (table_as f t) settled (map (step_as f) steps)
        ≡ items_as f (placed_module m u t settled steps) }
    ensures modules { (f : NameId → NameId) (m : ModuleDeclaration) (u : Usage) → KeepsApart f
        → built_module (declaration_as f m) (usage_as f u) ≡ found_as f (built_as f) (built_module m u) }
    ensures jobs { (f : NameId → NameId) (a b : BuildJob) → KeepsApart f
        → declaration_of b.module.value.body ≡ declaration_as f (declaration_of a.module.value.body) → b.parameters ≡ a.parameters
        → b.clock ≡ option_map f a.clock → b.children ≡ map (shape_as f) a.children → b.names ≡ map f a.names
        → built b ≡ found_as f (built_as f) (built a) }
{}

/// The jobs of a tree of instances are the same under other names, of which no two become one and each has the text that it had, or the first fault
/// is the same under these names. What stands within generate blocks is called the same.
#[tactic(none)]
pub fn names_may_change_in_jobs()
    ensures jobs { (f : NameId → NameId) (texts others : List (List ℕ)) (ms ns : List Module) (xs : List Instance) → KeepsApart f
        → SpellsSame f texts others → AllZip (IsModuleAs f) ms ns
        → AreJobsAs f (tree_jobs texts ms xs) (tree_jobs others ns (map (instance_as f) xs)) }
    ensures texts { (f : NameId → NameId) (texts others : List (List ℕ)) (steps : List ModuleStep) → SpellsSame f texts others
        → texts_within others (blocks_in (map (step_as f) steps)) [] (map (step_as f) steps) ≡ texts_within texts (blocks_in steps) [] steps }
{}
