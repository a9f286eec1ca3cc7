// What doesn't change under other names.
ghost use Rattle.std.specs.Prelude.{◌≡◌, ℕ, List, Option, map};
ghost use Rattle.std.specs.Option.{option_map};
ghost use Rattle.ls_text.specs.declared.name_id.NameId.{NameId};
ghost use Rattle.verilog_ast.specs.declared.identifier.Identifier.{Identifier};
ghost use Rattle.verilog_ast.specs.Declarations.{RangeBounds, PortList};
ghost use Rattle.verilog_ast.specs.Expressions.{Expression};
ghost use Rattle.verilog_ast.specs.Items.{ConnectionList, ModuleDeclaration};
ghost use Rattle.verilog_ast.specs.Renamed.{renamed_identifier};
ghost use Rattle.verilog_ast.specs.Renaming.{expression_as, range_as, ports_as, connections_as, declaration_as};
ghost use Rattle.width_rules.specs.Renaming.{MeansSame, fault_as};
ghost use Rattle.width_rules.specs.Scopes.{Scope};
ghost use Rattle.gen_unroll.specs.Declarations.{range_value};
ghost use Rattle.gen_unroll.specs.Reaches.{Reach, reach_in, in_reach};
ghost use Rattle.gen_unroll.specs.Spoken.{spoken};
ghost use Rattle.gen_unroll.specs.Steps.{GenerateBlock, ModuleStep, blocks_in};
ghost use Rattle.gen_unroll.specs.Told.{fault_in};
ghost use Rattle.gen_unroll.specs.Unrolled.{unrolled_module};
ghost use Rattle.gen_unroll.specs.Values.{ConstantValue, evaluated};
ghost use Rattle.module_names.specs.Modules.{module_named, parameters_of, header_ports, is_input_of};
ghost use Rattle.elaborate.specs.declared.limits.Limits.{Limits};
ghost use Rattle.elaborate.specs.Checks.{checked};
ghost use Rattle.clock_rules.specs.Connections.{connected};
ghost use Rattle.elaborate.specs.Elaborated.{top_of, elaborated};
ghost use Rattle.elaborate.specs.Overrides.{overridden};
ghost use Rattle.elaborate.specs.Trees.{tree};
ghost use Rattle.elaborate.specs.Visits.{visited};
ghost use Rattle.elaborate.specs.Findings.{checked_as, clock_as, visited_as, standing_as, seen_instance_as};
ghost use Rattle.elaborate.specs.Renaming.{KeepsApart, SameReach, SpellsSame, number_as, found_as, answer_as, block_as, step_as};

/// A module under other names, of which no two become one, is unrolled into the same steps under these names, with the same blocks, values
/// and order, and its first fault is the same under these names. Behind each step the names in reach mean what they meant, and a name within
/// a block is called what it was where the other names have the same texts.
#[tactic(none)]
pub fn names_may_change_in_modules()
    ensures steps { (f : NameId → NameId) (limit : ℕ) (overrides : List (Option ConstantValue)) (m : ModuleDeclaration) → KeepsApart f
        → (unrolled_module limit overrides (declaration_as f m)).said ≡ map (step_as f) (unrolled_module limit overrides m).said }
    ensures faults { (f : NameId → NameId) (limit : ℕ) (overrides : List (Option ConstantValue)) (m : ModuleDeclaration) → KeepsApart f
        → fault_in (unrolled_module limit overrides (declaration_as f m)).ending ≡ option_map (fault_as f) (fault_in (unrolled_module limit overrides m).ending) }
    ensures blocks { (f : NameId → NameId) (steps : List ModuleStep) → blocks_in (map (step_as f) steps) ≡ map (block_as f) (blocks_in steps) }
    ensures beginnings { (f : NameId → NameId) (m : ModuleDeclaration) → KeepsApart f → SameReach f (reach_in m) (reach_in (declaration_as f m)) }
    ensures reaches { (f : NameId → NameId) (step : ModuleStep) (here there : Reach) → KeepsApart f → SameReach f here there
        → SameReach f (in_reach step here) (in_reach (step_as f step) there) }
    ensures values { (f : NameId → NameId) (scope other : Scope) (e : Expression) → MeansSame f scope other
        → evaluated other (expression_as f e) ≡ answer_as f (evaluated scope e) }
    ensures ranges { (f : NameId → NameId) (scope other : Scope) (r : RangeBounds) → MeansSame f scope other
        → range_value other (range_as f r) ≡ answer_as f (range_value scope r) }
    ensures texts { (f : NameId → NameId) (texts others : List (List ℕ)) (blocks : List GenerateBlock) (k : Option ℕ) (n : NameId) → SpellsSame f texts others
        → spoken others (map (block_as f) blocks) k (f n).0 ≡ spoken texts blocks k n.0 }
{}

/// What an instance has to know of the module that it instantiates is the same under other names, of which no two become one: which module
/// has a name, its parameters and ports in their order, and whether a port is an input; so are the overrides of the parameters, and the first
/// fault of these and of connections.
#[tactic(none)]
pub fn names_may_change_in_headers()
    ensures modules { (f : NameId → NameId) (name : ℕ) (ms : List ModuleDeclaration) → KeepsApart f
        → module_named (number_as f name) (map (declaration_as f) ms) ≡ option_map (declaration_as f) (module_named name ms) }
    ensures parameters { (f : NameId → NameId) (m : ModuleDeclaration) → parameters_of (declaration_as f m) ≡ map (renamed_identifier f) (parameters_of m) }
    ensures ports { (f : NameId → NameId) (ps : PortList) → header_ports (ports_as f ps) ≡ map (renamed_identifier f) (header_ports ps) }
    ensures inputs { (f : NameId → NameId) (m : ModuleDeclaration) (name : ℕ) → KeepsApart f
        → is_input_of (declaration_as f m) (number_as f name) ≡ is_input_of m name }
    ensures overrides { (f : NameId → NameId) (scope other : Scope) (names : List Identifier) (xs : Option ConnectionList) → KeepsApart f → MeansSame f scope other
        → overridden other (map (renamed_identifier f) names) (option_map (connections_as f) xs) ≡ answer_as f (overridden scope names xs) }
    ensures connections { (f : NameId → NameId) (ports : List Identifier) (xs : ConnectionList) → KeepsApart f
        → connected (map (renamed_identifier f) ports) (connections_as f xs) ≡ answer_as f (connected ports xs) }
{}

/// A design under other names, of which no two become one, has the same instances in the same order under these names, or the same first
/// fault under these names; so have the checks and the visit of a module. Where the other names have the same texts, each instance is called
/// what it was.
#[tactic(none)]
pub fn names_may_change_in_designs()
    ensures checks { (f : NameId → NameId) (turns : ℕ) (ms : List ModuleDeclaration) (m : ModuleDeclaration) (overrides : List (Option ConstantValue)) → KeepsApart f
        → checked turns (map (declaration_as f) ms) (declaration_as f m) overrides ≡ found_as f (checked_as f) (checked turns ms m overrides) }
    ensures visits { (f : NameId → NameId) (turns : ℕ) (ms : List ModuleDeclaration) (most : Option ℕ) (m : ModuleDeclaration) (overrides : List (Option ConstantValue)) (clock : Option ℕ) → KeepsApart f
        → visited turns (map (declaration_as f) ms) most (declaration_as f m) overrides (clock_as f clock) ≡ found_as f (visited_as f) (visited turns ms most m overrides clock) }
    ensures tops { (f : NameId → NameId) (l : Limits) (ms : List ModuleDeclaration) (top : ℕ) → KeepsApart f
        → top_of l (map (declaration_as f) ms) (number_as f top) ≡ found_as f (declaration_as f) (top_of l ms top) }
    ensures instances { (f : NameId → NameId) (l : Limits) (ms : List ModuleDeclaration) (top clock : ℕ) → KeepsApart f
        → elaborated l (map (declaration_as f) ms) (number_as f top) (number_as f clock) ≡ found_as f (map (standing_as f)) (elaborated l ms top clock) }
    ensures trees { (f : NameId → NameId) (l : Limits) (texts others : List (List ℕ)) (ms : List ModuleDeclaration) (top clock : ℕ) → KeepsApart f → SpellsSame f texts others
        → tree l others (map (declaration_as f) ms) (number_as f top) (number_as f clock) ≡ found_as f (map (seen_instance_as f)) (tree l texts ms top clock) }
{}
