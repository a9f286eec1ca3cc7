// What doesn't hang on places.
ghost use Rattle.std.specs.Prelude.{◌≡◌, ℕ, List, Option, Ok, map};
ghost use Rattle.verilog_ast.specs.Items.{ModuleDeclaration};
ghost use Rattle.verilog_ast.specs.Views.{declaration_of};
ghost use Rattle.gen_unroll.specs.Steps.{ModuleStep};
ghost use Rattle.gen_unroll.specs.Unrolled.{unrolled_module};
ghost use Rattle.gen_unroll.specs.Values.{ConstantValue};
ghost use Rattle.gen_unroll.specs.Numbers.{module_table};
ghost use Rattle.module_registry.specs.declared.build_job.BuildJob.{BuildJob};
ghost use Rattle.module_registry.specs.Building.{Built};
ghost use Rattle.unit_build.specs.Building.{built};
ghost use Rattle.version_swap.specs.UnplacedFindings.{found_unplaced, answer_unplaced, step_unplaced, told_unplaced, table_unplaced};
ghost use Rattle.version_swap.specs.Unplaced.{unplaced_declaration};

/// Two jobs whose modules differ in places alone have the same unit, or the same first fault but for where it is shown. On the way a module is
/// unrolled into the same steps, and its signals have the same numbers.
#[tactic(none)]
pub fn places_change_nothing()
    ensures units { (a b : BuildJob) (u : Built)
        → unplaced_declaration (declaration_of a.module.value.body) ≡ unplaced_declaration (declaration_of b.module.value.body)
        → a.parameters ≡ b.parameters → a.clock ≡ b.clock → a.children ≡ b.children → a.names ≡ b.names → built a ≡ Ok u → built b ≡ Ok u }
    ensures faults { (a b : BuildJob)
        → unplaced_declaration (declaration_of a.module.value.body) ≡ unplaced_declaration (declaration_of b.module.value.body)
        → a.parameters ≡ b.parameters → a.clock ≡ b.clock → a.children ≡ b.children → a.names ≡ b.names
        → answer_unplaced (built a) ≡ answer_unplaced (built b) }
    ensures steps { (limit : ℕ) (overrides : List (Option ConstantValue)) (m : ModuleDeclaration)
        → unrolled_module limit overrides (unplaced_declaration m) ≡ told_unplaced (unrolled_module limit overrides m) }
    ensures tables { (m : ModuleDeclaration) (steps : List ModuleStep)
        → module_table (unplaced_declaration m) (map step_unplaced steps) ≡ found_unplaced table_unplaced (module_table m steps) }
{}
