// The tokens of an expression are read in at most one way, and its first one has its place.
ghost use Rattle.std.specs.Prelude.{◌≡◌, List, Ok, Err};
ghost use Rattle.ls_text.specs.declared.name_id.NameId.{NameId};
ghost use Rattle.verilog_lex.specs.declared.token.Token.{Token};
ghost use Rattle.verilog_ast.specs.declared.expression.Expr.{Expr};
ghost use Rattle.verilog_ast.specs.declared.expression.Reference.{Reference};
ghost use Rattle.verilog_ast.specs.declared.identifier.Identifier.{Identifier};
ghost use Rattle.verilog_ast.specs.Places.{expression_place};
ghost use Rattle.verilog_ast.specs.Renamed.{renamed_expression};
ghost use Rattle.verilog_ast.specs.Views.{expression_of, reference_of};
ghost use Rattle.verilog_expr.specs.declared.fault.ParseFault.{ParseFault};
ghost use Rattle.verilog_expr.specs.Grammar.{Symbol};
ghost use Rattle.verilog_expr.specs.Machine.{Outcome, Run};
ghost use Rattle.verilog_expr.specs.Renamed.{retokens};
ghost use Rattle.verilog_expr.specs.Spells.{Spells, AnExpression, ASelect};
ghost use Rattle.verilog_expr.specs.Tokens.{place_at};

/// No two trees and no two ends are read from one place in a list of tokens, and the machine has no two outcomes there.
#[tactic(none)]
pub fn expressions_are_read_in_one_way()
    ensures tree { (x y : Expr) (s r t : List Token) → Spells (AnExpression x) s r → Spells (AnExpression y) s t
        → (x ≡ y) × (r ≡ t) }
    ensures outcome { (stack : List Symbol) (s : List Token) (a b : Outcome) → Run stack s a → Run stack s b → a ≡ b }
{}

/// Under other names the tokens stand for the expression under these, and the machine ends as before.
#[tactic(none)]
pub fn expressions_may_be_renamed()
    ensures tree { (f : NameId → NameId) (x : Expr) (s r : List Token) → Spells (AnExpression x) s r
        → Spells (AnExpression (renamed_expression f x)) (retokens f s) (retokens f r) }
    ensures taken { (f : NameId → NameId) (stack : List Symbol) (s r : List Token) → Run stack s (Ok r)
        → Run stack (retokens f s) (Ok (retokens f r)) }
    ensures fault { (f : NameId → NameId) (stack : List Symbol) (s : List Token) (x : ParseFault) → Run stack s (Err x)
        → Run stack (retokens f s) (Err x) }
{}

/// An expression has the place of the first token that it stands for, and a name with its select that of the name.
#[tactic(none)]
pub fn expressions_have_places()
    ensures expressions { (x : Expr) (s r : List Token) → Spells (AnExpression x) s r → expression_place (expression_of x) ≡ place_at s }
    ensures references { (n : Identifier) (x : Reference) (s r : List Token) → Spells (ASelect n x) s r
        → expression_place (reference_of x) ≡ n.at }
{}
