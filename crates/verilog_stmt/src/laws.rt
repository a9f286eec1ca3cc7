// Where targets and statements stand.
ghost use Rattle.std.specs.Prelude.{◌≡◌, List, drop, Some};
ghost use Rattle.verilog_lex.specs.declared.token.Token.{Token};
ghost use Rattle.verilog_ast.specs.declared.case_kind.CaseKind.{CaseKind};
ghost use Rattle.verilog_ast.specs.declared.identifier.Identifier.{Identifier};
ghost use Rattle.verilog_ast.specs.declared.label.Label.{Label};
ghost use Rattle.verilog_ast.specs.declared.sign.Sign.{Sign};
ghost use Rattle.verilog_ast.specs.declared.statement.Arm.{Arm};
ghost use Rattle.verilog_ast.specs.declared.statement.Stmt.{Stmt};
ghost use Rattle.verilog_ast.specs.declared.target.Lhs.{Lhs};
ghost use Rattle.verilog_ast.specs.Places.{target_place, label_place, statement_place};
ghost use Rattle.verilog_ast.specs.Views.{target_of, label_of, statement_of, arm_of};
ghost use Rattle.verilog_expr.specs.Tokens.{place_at};
ghost use Rattle.verilog_stmt.specs.Statements as statements;

/// A target, a statement, an item of a `case` and its labels have the place of the first token that they stand for, and the label of
/// a block that of the token after its colon.
#[tactic(none)]
pub fn statements_have_places()
    ensures targets { (x : Lhs) (s r : List Token) → statements.Spells (statements.ATarget x) s r → target_place (target_of x) ≡ place_at s }
    ensures statements { (g : Sign) (x : Stmt) (s r : List Token) → statements.Spells (statements.AStatement g x) s r
        → statement_place (statement_of x) ≡ place_at s }
    ensures arms { (g : Sign) (which : CaseKind) (x : Arm) (s r : List Token) → statements.Spells (statements.AnArm g which x) s r
        → statement_place (arm_of x) ≡ place_at s }
    ensures labels { (which : CaseKind) (x : Label) (s r : List Token) → statements.Spells (statements.ALabel which x) s r
        → label_place (label_of x) ≡ place_at s }
    ensures blocks { (l : Identifier) (s r : List Token) → statements.Spells (statements.OptionalLabel (Some l)) s r
        → l.at ≡ place_at (drop 1 s) }
{}
