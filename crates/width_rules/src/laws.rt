// What doesn't change under other names.
ghost use Rattle.std.specs.Prelude.{◌≡◌, ℕ, Bool, Option, map};
ghost use Rattle.ls_text.specs.declared.name_id.NameId.{NameId};
ghost use Rattle.verilog_ast.specs.Expressions.{Expression};
ghost use Rattle.verilog_ast.specs.Renaming.{expression_as};
ghost use Rattle.width_rules.specs.declared.due.Due.{Due};
ghost use Rattle.width_rules.specs.Constants.{constant};
ghost use Rattle.width_rules.specs.Faults.{faults, sizing_faults};
ghost use Rattle.width_rules.specs.References.{reference_part, reference_faults};
ghost use Rattle.width_rules.specs.Renaming.{MeansSame, fault_as};
ghost use Rattle.width_rules.specs.Scopes.{Scope};
ghost use Rattle.width_rules.specs.Signs.{is_signed};
ghost use Rattle.width_rules.specs.Sizes.{length, push};

/// An expression under other names, in a scope where these mean the same, has the same sign, length, sized form and value, and the
/// same faults under these names; so have names and selects that are written.
#[tactic(none)]
pub fn names_may_change()
    ensures signs { (f : NameId → NameId) (scope other : Scope) (e : Expression) → MeansSame f scope other
        → is_signed other (expression_as f e) ≡ is_signed scope e }
    ensures lengths { (f : NameId → NameId) (scope other : Scope) (e : Expression) → MeansSame f scope other
        → length other (expression_as f e) ≡ length scope e }
    ensures forms { (f : NameId → NameId) (scope other : Scope) (e : Expression) (width : ℕ) (signed : Bool) → MeansSame f scope other
        → push other (expression_as f e) width signed ≡ push scope e width signed }
    ensures values { (f : NameId → NameId) (scope other : Scope) (e : Expression) → MeansSame f scope other
        → constant other (expression_as f e) ≡ constant scope e }
    ensures faults { (f : NameId → NameId) (scope other : Scope) (due : Due) (e : Expression) → MeansSame f scope other
        → faults other due (expression_as f e) ≡ map (fault_as f) (faults scope due e) }
    ensures contexts { (f : NameId → NameId) (scope other : Scope) (context : Option ℕ) (e : Expression) → MeansSame f scope other
        → sizing_faults other (expression_as f e) context ≡ map (fault_as f) (sizing_faults scope e context) }
    ensures references { (f : NameId → NameId) (scope other : Scope) (shift : ℕ) (e : Expression) → MeansSame f scope other
        → reference_part other shift (expression_as f e) ≡ reference_part scope shift e }
    ensures reference_faults { (f : NameId → NameId) (scope other : Scope) (due : Due) (e : Expression) → MeansSame f scope other
        → reference_faults other due (expression_as f e) ≡ map (fault_as f) (reference_faults scope due e) }
{}
