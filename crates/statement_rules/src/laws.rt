// What doesn't change under other names.
ghost use Rattle.std.specs.Prelude.{◌≡◌, ℕ, List, map};
ghost use Rattle.ls_text.specs.declared.name_id.NameId.{NameId};
ghost use Rattle.verilog_ast.specs.Expressions.{Target};
ghost use Rattle.verilog_ast.specs.Items.{ContinuousAssignment};
ghost use Rattle.verilog_ast.specs.Renaming.{target_as, statement_as, assignment_as};
ghost use Rattle.verilog_ast.specs.Statements.{Statement};
ghost use Rattle.width_rules.specs.declared.due.Due.{Due};
ghost use Rattle.width_rules.specs.declared.writer.Writer.{Writer};
ghost use Rattle.width_rules.specs.Renaming.{MeansSame, fault_as};
ghost use Rattle.width_rules.specs.Scopes.{Scope};
ghost use Rattle.statement_rules.specs.Drives.{sized_drive, assign_faults};
ghost use Rattle.statement_rules.specs.Statements.{sized_statement, statement_faults};
ghost use Rattle.statement_rules.specs.Targets.{parts, target_faults, kind_faults};

/// Statements, continuous assignments and targets under other names, in a scope where these mean the same, have the same sized form, and the
/// same faults under these names.
#[tactic(none)]
pub fn names_may_change()
    ensures statements { (f : NameId → NameId) (scope other : Scope) (by : Writer) (x : Statement) → MeansSame f scope other
        → sized_statement other by (statement_as f x) ≡ sized_statement scope by x }
    ensures faults { (f : NameId → NameId) (scope other : Scope) (by : Writer) (x : Statement) → MeansSame f scope other
        → statement_faults other by (statement_as f x) ≡ map (fault_as f) (statement_faults scope by x) }
    ensures drives { (f : NameId → NameId) (scope other : Scope) (x : ContinuousAssignment) → MeansSame f scope other
        → sized_drive other (assignment_as f x) ≡ sized_drive scope x }
    ensures drive_faults { (f : NameId → NameId) (scope other : Scope) (xs : List ContinuousAssignment) → MeansSame f scope other
        → assign_faults other (map (assignment_as f) xs) ≡ map (fault_as f) (assign_faults scope xs) }
    ensures targets { (f : NameId → NameId) (scope other : Scope) (shift : ℕ) (t : Target) → MeansSame f scope other
        → parts other shift (target_as f t) ≡ parts scope shift t }
    ensures target_faults { (f : NameId → NameId) (scope other : Scope) (due : Due) (t : Target) → MeansSame f scope other
        → target_faults other due (target_as f t) ≡ map (fault_as f) (target_faults scope due t) }
    ensures kinds { (f : NameId → NameId) (scope other : Scope) (by : Writer) (t : Target) → MeansSame f scope other
        → kind_faults other by (target_as f t) ≡ map (fault_as f) (kind_faults scope by t) }
{}
