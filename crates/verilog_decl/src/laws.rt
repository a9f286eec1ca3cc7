// Where declared names and connections stand.
ghost use Rattle.std.specs.Prelude.{◌≡◌, List, drop};
ghost use Rattle.verilog_lex.specs.declared.token.Token.{Token};
ghost use Rattle.verilog_ast.specs.declared.identifier.Identifier.{Identifier};
ghost use Rattle.verilog_ast.specs.declared.instance.Instance.{Instance};
ghost use Rattle.verilog_ast.specs.declared.named_connection.NamedConnection.{NamedConnection};
ghost use Rattle.verilog_ast.specs.declared.ordered_connection.OrderedConnection.{OrderedConnection};
ghost use Rattle.verilog_ast.specs.declared.parameter.Parameter.{Parameter};
ghost use Rattle.verilog_ast.specs.declared.reg_variable.RegVariable.{RegVariable};
ghost use Rattle.verilog_ast.specs.declared.variable.Variable.{Variable};
ghost use Rattle.verilog_expr.specs.Tokens.{place_at};
ghost use Rattle.verilog_decl.specs.Apart.{StandApart};
ghost use Rattle.verilog_decl.specs.Declarations as declarations;

/// A declared name, a parameter, an instance and a connection have the place of the first token that they stand for: its name, its
/// name, its name, and its dot or its expression. An empty connection by order has that of the token after it. The name that a
/// connection or an override gives has that of the token after its dot, and each of several names that of its own token.
#[tactic(none)]
pub fn declarations_have_places()
    ensures variables { (x : Variable) (s r : List Token) → declarations.Spells (declarations.AVariable x) s r → x.name.at ≡ place_at s }
    ensures regs { (x : RegVariable) (s r : List Token) → declarations.Spells (declarations.ARegVariable x) s r → x.name.at ≡ place_at s }
    ensures parameters { (x : Parameter) (s r : List Token) → declarations.Spells (declarations.AParameter x) s r → x.name.at ≡ place_at s }
    ensures instances { (x : Instance) (s r : List Token) → declarations.Spells (declarations.AnInstance x) s r → x.name.at ≡ place_at s }
    ensures by_name { (x : NamedConnection) (s r : List Token) → declarations.Spells (declarations.ANamedConnection x) s r → x.at ≡ place_at s }
    ensures given { (x : NamedConnection) (s r : List Token) → declarations.Spells (declarations.ANamedConnection x) s r → x.name.at ≡ place_at (drop 1 s) }
    ensures by_order { (x : OrderedConnection) (s r : List Token) → declarations.Spells (declarations.AnOrdered x) s r → x.at ≡ place_at s }
    ensures names { (xs : List Identifier) (s r : List Token) → declarations.Spells (declarations.Names xs) s r → StandApart xs s }
{}
