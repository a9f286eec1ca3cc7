// What is sized without a fault fits the signals of its scope.
ghost use Rattle.std.specs.Prelude.{◌≡◌, ◌≤◌, ℕ, Bool, true, List, [], map};
ghost use Rattle.ls_text.specs.declared.name_id.NameId.{NameId};
ghost use Rattle.typed_ir.specs.declared.lane.Lane.{Lane};
ghost use Rattle.typed_ir.specs.Nodes.{are_lanes};
ghost use Rattle.typed_ir.specs.Sized.{is_width, is_signal, width_of};
ghost use Rattle.typed_ir.specs.Stmts.{Fixed, is_sized, are_targets, is_legal};
ghost use Rattle.verilog_ast.specs.declared.continuous.Continuous.{Continuous};
ghost use Rattle.verilog_ast.specs.declared.expression.Expr.{Expr};
ghost use Rattle.verilog_ast.specs.declared.statement.Stmt.{Stmt};
ghost use Rattle.verilog_ast.specs.declared.target.Lhs.{Lhs};
ghost use Rattle.verilog_ast.specs.Expressions.{Expression, Target};
ghost use Rattle.verilog_ast.specs.Items.{ContinuousAssignment};
ghost use Rattle.verilog_ast.specs.Statements.{Statement};
ghost use Rattle.verilog_ast.specs.Views.{expression_of, target_of, statement_of, assignment_of};
ghost use Rattle.width_rules.specs.declared.due.Due.{Due};
ghost use Rattle.width_rules.specs.declared.due.Due.TheVariants.{AnyValue};
ghost use Rattle.width_rules.specs.declared.entry.Entry.{Entry};
ghost use Rattle.width_rules.specs.declared.writer.Writer.{Writer};
ghost use Rattle.width_rules.specs.declared.writer.Writer.TheVariants.{Combinational, Continuous as ByAssign};
ghost use Rattle.width_rules.specs.Constants.{constant, integer};
ghost use Rattle.width_rules.specs.Faults.{faults};
ghost use Rattle.width_rules.specs.Found.{found};
ghost use Rattle.width_rules.specs.Opened.{own};
ghost use Rattle.width_rules.specs.Scopes.{Scope};
ghost use Rattle.width_rules.specs.Signs.{is_signed};
ghost use Rattle.width_rules.specs.Sizes.{length, push, is_constant};
ghost use Rattle.statement_rules.specs.Drives.{sized_drive, assign_faults};
ghost use Rattle.statement_rules.specs.Statements.{sized_statement, item_faults, statement_faults};
ghost use Rattle.statement_rules.specs.Targets.{target_length, parts, target_faults, kind_faults};
ghost use Rattle.statement_rules.specs.Entries.{are_there};
ghost use Rattle.statement_rules.specs.Examples.{scope, widths, expression, statement, assignments};
ghost use Rattle.statement_rules.specs.Fitting.{FitsScope, FitDrives};
ghost use Rattle.statement_rules.specs.Renumbering.{renumbered, numbered_as, target_as, statement_as, drive_as};
ghost use Rattle.statement_rules.specs.Written.{IsWritten, IsTargetWritten, IsStatementWritten, AreAssignsWritten};

/// Under a scope that fits the widths of signals, what has no fault and is sized has widths that agree, and reads and writes these signals alone.
#[tactic(none)]
pub fn sized_text_fits()
    ensures entries { (entries : List (NameId × Entry)) (widths : List ℕ) → are_there entries widths ≡ true → FitsScope (found entries) widths }
    ensures lengths { (scope : Scope) (widths : List ℕ) (due : Due) (e : Expression) → FitsScope scope widths → IsWritten e → faults scope due e ≡ []
        → is_width (length scope e) ≡ true }
    ensures forms { (scope : Scope) (widths : List ℕ) (due : Due) (e : Expression) (l : ℕ) (t : Bool) → FitsScope scope widths → IsWritten e → faults scope due e ≡ []
        → length scope e ≤ l → l ≤ 128 → is_sized (push scope e l t) widths ≡ true }
    ensures widths { (scope : Scope) (widths : List ℕ) (due : Due) (e : Expression) (l : ℕ) (t : Bool) → FitsScope scope widths → IsWritten e → faults scope due e ≡ []
        → length scope e ≤ l → l ≤ 128 → width_of (push scope e l t) ≡ l }
    ensures own { (scope : Scope) (widths : List ℕ) (due : Due) (e : Expression) → FitsScope scope widths → IsWritten e → faults scope due e ≡ []
        → is_sized (own scope e) widths ≡ true }
    ensures own_widths { (scope : Scope) (widths : List ℕ) (due : Due) (e : Expression) → FitsScope scope widths → IsWritten e → faults scope due e ≡ []
        → width_of (own scope e) ≡ length scope e }
    ensures targets { (scope : Scope) (widths : List ℕ) (due : Due) (by : Writer) (t : Target) → FitsScope scope widths → IsTargetWritten t → target_faults scope due t ≡ []
        → kind_faults scope by t ≡ [] → are_targets (parts scope 0 t) widths ≡ true }
    ensures statements { (scope : Scope) (widths : List ℕ) (by : Writer) (x : Statement) → FitsScope scope widths → IsStatementWritten x → statement_faults scope by x ≡ []
        → is_legal (sized_statement scope by x) widths ≡ true }
    ensures drives { (scope : Scope) (widths : List ℕ) (xs : List ContinuousAssignment) → FitsScope scope widths → AreAssignsWritten xs → assign_faults scope xs ≡ []
        → FitDrives scope xs widths }
    ensures lanes { (lanes : List Lane) (widths : List ℕ) → are_targets (map Fixed lanes) widths ≡ are_lanes lanes widths }
    ensures example { FitsScope scope widths × (IsWritten expression × (faults scope AnyValue expression ≡ []))
        × (IsStatementWritten statement × (statement_faults scope Combinational statement ≡ []))
        × (AreAssignsWritten assignments × (assign_faults scope assignments ≡ [])) }
{}

/// Under a scope whose signals have other numbers, expressions, targets, statements and continuous assignments have the same sized form under
/// these numbers, and the same lengths, signs, constants and faults.
#[tactic(none)]
pub fn signals_may_be_renumbered()
    ensures scopes { (g : ℕ → ℕ) (scope : Scope) (widths others : List ℕ) → ((s w : ℕ) → is_signal s w widths ≡ true → is_signal (g s) w others ≡ true)
        → FitsScope scope widths → FitsScope (renumbered g scope) others }
    ensures signs { (g : ℕ → ℕ) (scope : Scope) (e : Expression) → is_signed (renumbered g scope) e ≡ is_signed scope e }
    ensures lengths { (g : ℕ → ℕ) (scope : Scope) (e : Expression) → length (renumbered g scope) e ≡ length scope e }
    ensures known { (g : ℕ → ℕ) (scope : Scope) (e : Expression) → is_constant (renumbered g scope) e ≡ is_constant scope e }
    ensures values { (g : ℕ → ℕ) (scope : Scope) (e : Expression) → integer (renumbered g scope) e ≡ integer scope e }
    ensures constants { (g : ℕ → ℕ) (scope : Scope) (e : Expression) → constant (renumbered g scope) e ≡ constant scope e }
    ensures forms { (g : ℕ → ℕ) (scope : Scope) (e : Expression) (l : ℕ) (t : Bool) → push (renumbered g scope) e l t ≡ numbered_as g (push scope e l t) }
    ensures faults { (g : ℕ → ℕ) (scope : Scope) (due : Due) (e : Expression) → faults (renumbered g scope) due e ≡ faults scope due e }
    ensures targets { (g : ℕ → ℕ) (scope : Scope) (by : Writer) (shift : ℕ) (t : Target) → IsTargetWritten t → kind_faults scope by t ≡ []
        → parts (renumbered g scope) shift t ≡ map (target_as g) (parts scope shift t) }
    ensures target_lengths { (g : ℕ → ℕ) (scope : Scope) (t : Target) → target_length (renumbered g scope) t ≡ target_length scope t }
    ensures target_faults { (g : ℕ → ℕ) (scope : Scope) (due : Due) (t : Target) → target_faults (renumbered g scope) due t ≡ target_faults scope due t }
    ensures kinds { (g : ℕ → ℕ) (scope : Scope) (by : Writer) (t : Target) → kind_faults (renumbered g scope) by t ≡ kind_faults scope by t }
    ensures statements { (g : ℕ → ℕ) (scope : Scope) (by : Writer) (x : Statement) → IsStatementWritten x → item_faults scope by x ≡ []
        → sized_statement (renumbered g scope) by x ≡ statement_as g (sized_statement scope by x) }
    ensures statement_faults { (g : ℕ → ℕ) (scope : Scope) (by : Writer) (x : Statement) → statement_faults (renumbered g scope) by x ≡ statement_faults scope by x }
    ensures drives { (g : ℕ → ℕ) (scope : Scope) (x : ContinuousAssignment) → IsTargetWritten x.target → kind_faults scope ByAssign x.target ≡ []
        → sized_drive (renumbered g scope) x ≡ drive_as g (sized_drive scope x) }
    ensures drive_faults { (g : ℕ → ℕ) (scope : Scope) (xs : List ContinuousAssignment) → assign_faults (renumbered g scope) xs ≡ assign_faults scope xs }
{}

/// What a tree of the code is as plain data is written as a parser writes it.
#[tactic(none)]
pub fn trees_are_written()
    ensures expressions { (x : Expr) → IsWritten (expression_of x) }
    ensures targets { (x : Lhs) → IsTargetWritten (target_of x) }
    ensures statements { (x : Stmt) → IsStatementWritten (statement_of x) }
    ensures assignments { (xs : List Continuous) → AreAssignsWritten (map assignment_of xs) }
{}
