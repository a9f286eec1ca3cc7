// What trees are as plain data: all that they are, also under other names, and with their names.
ghost use Rattle.std.specs.Prelude.{◌≡◌};
ghost use Rattle.ls_text.specs.declared.name_id.NameId.{NameId};
ghost use Rattle.verilog_ast.specs.declared.expression.Expr.{Expr};
ghost use Rattle.verilog_ast.specs.declared.target.Lhs.{Lhs};
ghost use Rattle.verilog_ast.specs.declared.statement.Stmt.{Stmt};
ghost use Rattle.verilog_ast.specs.declared.module_body.ModuleBody.{ModuleBody};
ghost use Rattle.verilog_ast.specs.Names.{names_of_expression, names_of_target, names_of_statement, names_of_body};
ghost use Rattle.verilog_ast.specs.NamesWithin.{names_in_expression, names_in_target, names_in_statement, names_in_declaration};
ghost use Rattle.verilog_ast.specs.Renamed.{renamed_expression, renamed_target, renamed_statement, renamed_body};
ghost use Rattle.verilog_ast.specs.Views.{expression_of, target_of, statement_of, declaration_of};
ghost use Rattle.verilog_ast.specs.Renaming.{expression_as, target_as, statement_as, declaration_as};

/// A tree under other names is, as plain data, what the tree is, under these names.
#[tactic(none)]
pub fn names_are_numbers()
    ensures expressions { (f : NameId → NameId) (x : Expr) → expression_of (renamed_expression f x) ≡ expression_as f (expression_of x) }
    ensures targets { (f : NameId → NameId) (x : Lhs) → target_of (renamed_target f x) ≡ target_as f (target_of x) }
    ensures statements { (f : NameId → NameId) (x : Stmt) → statement_of (renamed_statement f x) ≡ statement_as f (statement_of x) }
    ensures modules { (f : NameId → NameId) (x : ModuleBody) → declaration_of (renamed_body f x) ≡ declaration_as f (declaration_of x) }
{}

/// The names in a tree are those in what it is as plain data, in their order.
#[tactic(none)]
pub fn names_stay_in_views()
    ensures expressions { (x : Expr) → names_of_expression x ≡ names_in_expression (expression_of x) }
    ensures targets { (x : Lhs) → names_of_target x ≡ names_in_target (target_of x) }
    ensures statements { (x : Stmt) → names_of_statement x ≡ names_in_statement (statement_of x) }
    ensures modules { (x : ModuleBody) → names_of_body x ≡ names_in_declaration (declaration_of x) }
{}

/// A tree's plain data keeps all of it: trees that are the same as plain data are the same, with each place, sign, size, value, name
/// and part.
#[tactic(none)]
pub fn views_lose_nothing()
    ensures expressions { (x y : Expr) → expression_of x ≡ expression_of y → x ≡ y }
    ensures targets { (x y : Lhs) → target_of x ≡ target_of y → x ≡ y }
    ensures statements { (x y : Stmt) → statement_of x ≡ statement_of y → x ≡ y }
    ensures modules { (x y : ModuleBody) → declaration_of x ≡ declaration_of y → x ≡ y }
{}
