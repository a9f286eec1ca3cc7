// What a block mentions, against its sized form.
ghost use Rattle.std.specs.Prelude.{◌≡◌, ◌<◌, [], ◌∷◌, length, map, Some};
ghost use Rattle.typed_ir.specs.Stmts.{SizedStmt, span_of, targets, later_targets};
ghost use Rattle.typed_ir.specs.declared.target_form.TargetForm.TheVariants.{Name};
ghost use Rattle.verilog_ast.specs.declared.statement.Stmt.{Stmt};
ghost use Rattle.verilog_ast.specs.declared.target.Lhs.{Lhs};
ghost use Rattle.verilog_ast.specs.Expressions.{Expression};
ghost use Rattle.verilog_ast.specs.Views.{statement_of, target_of};
ghost use Rattle.verilog_ast.specs.Places.{no_place};
ghost use Rattle.width_rules.specs.declared.writer.Writer.{Writer};
ghost use Rattle.width_rules.specs.declared.writer.Writer.TheVariants.{Clocked, Combinational};
ghost use Rattle.width_rules.specs.Faults.{fault};
ghost use Rattle.width_rules.specs.Scopes.{Scope};
ghost use Rattle.statement_rules.specs.Statements.{sized_statement, statement_faults};
ghost use Rattle.statement_rules.specs.Targets.{parts};
ghost use Rattle.block_rules.specs.Paths.{flags_of_block};
ghost use Rattle.mention_laws.specs.Example.{scope as names, statement, reads, targets as written, with_two, mention};
ghost use Rattle.width_rules.specs.Forms.{statement_shown};
ghost use Rattle.mention_laws.specs.Leaves.{statement_leaves, signals_of, signals_named};
ghost use Rattle.mention_laws.specs.Shown.{first_written, IsShownBy};
ghost use Rattle.width_rules.specs.Mentions.{numbered, statement_reads, statement_targets};
ghost use Rattle.width_rules.specs.Names.{target_names, expression_targets, written_as};

/// What a tree mentions are the signals of its sized form, one by one: its reads those of the leaves that `block_rules` flags, its targets
/// those of the parts that it writes. A name that is no signal counts as signal 0, as in the sized form.
#[tactic(none)]
pub fn mentions_are_of_leaves()
    ensures reads { (scope : Scope) (by : Writer) (x : Stmt) → signals_of (statement_leaves (sized_statement scope by (statement_of x))) ≡ signals_named scope (statement_reads scope 0 (statement_of x)) }
    ensures targets { (scope : Scope) (x : Stmt) → signals_of (targets (sized_statement scope Combinational (statement_of x))) ≡ signals_named scope (statement_targets 0 (statement_of x)) }
    ensures later_targets { (scope : Scope) (x : Stmt) → signals_of (later_targets (sized_statement scope Clocked (statement_of x))) ≡ signals_named scope (statement_targets 0 (statement_of x)) }
    ensures parts { (scope : Scope) (t : Lhs) → signals_of (map span_of (parts scope 0 (target_of t))) ≡ signals_named scope (numbered 0 (target_names (target_of t))) }
    ensures connections { (t : Lhs) → expression_targets (written_as (target_of t)) ≡ target_names (target_of t) }
    ensures flags { (st : SizedStmt) → length (flags_of_block st) ≡ length (statement_leaves st) }
    ensures so_many_reads { (scope : Scope) (x : Stmt) → length (flags_of_block (sized_statement scope Combinational (statement_of x))) ≡ length (statement_reads scope 0 (statement_of x)) }
    ensures so_many_targets { (scope : Scope) (x : Stmt) → length (targets (sized_statement scope Combinational (statement_of x))) ≡ length (statement_targets 0 (statement_of x)) }
    ensures so_many_later { (scope : Scope) (x : Stmt) → length (later_targets (sized_statement scope Clocked (statement_of x))) ≡ length (statement_targets 0 (statement_of x)) }
{}

/// A combinational block without a fault is named by the name that stands first in its text, wherever the default of a case stands: the mention
/// that it tells has the name's place and comes first (`IsShownBy`), the bits are of its signal, and they are shown in the form of its select.
/// Where the block has targets, what it tells is one of them.
#[tactic(none)]
pub fn blocks_are_named_by_their_first_target()
    ensures named { (scope : Scope) (x : Stmt) (r : Expression) → statement_faults scope Combinational (statement_of x) ≡ []
        → first_written (statement_of x) ≡ Some r → IsShownBy scope (statement_of x) r }
    ensures some { (scope : Scope) (x : Stmt) → statement_faults scope Combinational (statement_of x) ≡ []
        → 0 < length (targets (sized_statement scope Combinational (statement_of x)))
        → (r : Expression) × (first_written (statement_of x) ≡ Some r) }
    ensures own { (scope : Scope) (x : Stmt) → statement_faults scope Combinational (statement_of x) ≡ []
        → 0 < length (targets (sized_statement scope Combinational (statement_of x)))
        → (statement_shown scope (statement_of x)).number < length (targets (sized_statement scope Combinational (statement_of x))) }
{}

/// A case with two defaults, by hand, of which the second one stands first among what writes: what it writes isn't listed, so the number that
/// is told is none of its targets. Such a text has the fault 30.
#[tactic(none)]
pub fn a_second_default_is_not_listed()
    ensures targets { statement_targets 0 with_two ≡ mention 4 1 ∷ [] }
    ensures shown { statement_shown names with_two ≡ record { number = 1; form = Name } }
    ensures faults { statement_faults names Combinational with_two ≡ fault 30 no_place [] ∷ [] }
{}

/// A case whose default stands first, by hand: its default comes last, with the numbers that it has in the text, and is named first.
#[tactic(none)]
pub fn default_comes_last()
    ensures reads { statement_reads names 0 statement ≡ reads }
    ensures targets { statement_targets 0 statement ≡ written }
    ensures shown { statement_shown names statement ≡ record { number = 3; form = Name } }
{}
