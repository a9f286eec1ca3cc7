// What the definition of a text's modules comes to, and where their parts stand.
ghost use Rattle.std.specs.Prelude.{◌≡◌, ℕ, List, drop, map, Err};
ghost use Rattle.ls_text.specs.declared.fault.Fault.{Fault};
ghost use Rattle.ls_text.specs.declared.name_id.NameId.{NameId};
ghost use Rattle.ls_text.specs.declared.place.Place.{Place};
ghost use Rattle.ls_text.specs.declared.refusal.Refusal.TheVariants as refusal;
ghost use Rattle.verilog_lex.specs.declared.token.Token.{Token};
ghost use Rattle.verilog_ast.specs.declared.continuous.Continuous.{Continuous};
ghost use Rattle.verilog_ast.specs.declared.generate_item.Branch.{Branch};
ghost use Rattle.verilog_ast.specs.declared.generate_item.GenerateItem.{GenerateItem};
ghost use Rattle.verilog_ast.specs.declared.header_port.HeaderPort.{HeaderPort};
ghost use Rattle.verilog_ast.specs.declared.header_port.HeaderPort.TheVariants as port;
ghost use Rattle.verilog_ast.specs.declared.identifier.Identifier.{Identifier};
ghost use Rattle.verilog_ast.specs.declared.item.Item.{Item};
ghost use Rattle.verilog_ast.specs.declared.module.Module.{Module};
ghost use Rattle.verilog_ast.specs.declared.module_body.ModuleBody.{ModuleBody};
ghost use Rattle.verilog_ast.specs.declared.plain_item.PlainItem.TheVariants as plain;
ghost use Rattle.verilog_ast.specs.declared.port_net.PortNet.{PortNet};
ghost use Rattle.verilog_ast.specs.declared.ports.Ports.TheVariants as ports;
ghost use Rattle.verilog_ast.specs.declared.shape.Shape.{Shape};
ghost use Rattle.verilog_ast.specs.declared.statement.Stmt.{Stmt};
ghost use Rattle.verilog_ast.specs.Places.{target_place, port_place, item_place};
ghost use Rattle.verilog_ast.specs.Views.{target_of, port_of, generate_item_of, item_of, declarations_of};
ghost use Rattle.verilog_ast.specs.Renaming.{declaration_as};
ghost use Rattle.verilog_expr.specs.declared.fault.ParseFault.{ParseFault};
ghost use Rattle.verilog_expr.specs.Machine.{Run};
ghost use Rattle.verilog_expr.specs.Renamed.{retokens};
ghost use Rattle.verilog_expr.specs.Shown.{Refuses};
ghost use Rattle.verilog_expr.specs.Tokens.{place_at};
ghost use Rattle.verilog_decl.specs.Apart.{StandApart};
ghost use Rattle.verilog_decl.specs.Headers as headers;
ghost use Rattle.verilog_parse.specs.Files.{file, IsSpelled, Stands};
ghost use Rattle.verilog_parse.specs.Generates as generates;
ghost use Rattle.verilog_parse.specs.Items as items;
ghost use Rattle.verilog_parse.specs.Lasts.{StandsLast};
ghost use Rattle.verilog_parse.specs.Modules as modules;

/// A text has at most one list of modules and at most one fault, and not both. What modules spell has no fault but 16: the
/// machine is never stuck there.
#[tactic(none)]
pub fn texts_are_read_in_one_way()
    ensures modules { (names : List (List ℕ)) (xs ys : List Module) (s : List Token) → Stands names xs s → Stands names ys s → xs ≡ ys }
    ensures fault { (s : List Token) (f g : Fault) → Refuses file s (refusal.Fault f) → Refuses file s (refusal.Fault g) → f ≡ g }
    ensures either { (names : List (List ℕ)) (xs : List Module) (s : List Token) (f : Fault)
        → Stands names xs s → Refuses file s (refusal.Fault f) → ⊥ }
    ensures spelled { (s : List Token) (f : Fault) → IsSpelled s → Refuses file s (refusal.Fault f) → f.code ≡ 16 }
{}

/// Where two lists of tokens are the same under other names, so are their modules as plain data, and the machine's faults.
#[tactic(none)]
pub fn names_may_change()
    ensures modules { (f g : NameId → NameId) (names other : List (List ℕ)) (xs ys : List Module) (s q : List Token)
        → retokens f s ≡ retokens g q → Stands names xs s → Stands other ys q
        → map (declaration_as f) (declarations_of xs) ≡ map (declaration_as g) (declarations_of ys) }
    ensures fault { (f g : NameId → NameId) (s q : List Token) (x y : ParseFault)
        → retokens f s ≡ retokens g q → Run file s (Err x) → Run file q (Err y) → x ≡ y }
    ensures either { (f g : NameId → NameId) (names : List (List ℕ)) (xs : List Module) (s q : List Token) (x : ParseFault)
        → retokens f s ≡ retokens g q → Stands names xs s → Run file q (Err x) → ⊥ }
{}

/// An assignment has the place of its target's first token, and a port that a header declares that of its own first token.
#[tactic(none)]
pub fn parts_of_items_have_places()
    ensures assignments { (x : Continuous) (s r : List Token) → items.Spells (items.AContinuous x) s r
        → target_place (target_of x.target) ≡ place_at s }
    ensures ports { (x : HeaderPort) (s r : List Token) → headers.Spells (headers.NextHeaderPort x) s r → port_place (port_of x) ≡ place_at s }
{}

/// An item has the place of the first token that it stands for: instances that of their module's name, an `if` that of its first
/// branch, and an `else` without a condition that of its `begin`.
#[tactic(none)]
pub fn items_have_places()
    ensures items { (x : Item) (s r : List Token) → modules.Spells (modules.AnItem x) s r → item_place (item_of x) ≡ place_at s }
    ensures generates { (x : GenerateItem) (s r : List Token) → generates.Spells (generates.AGenerateItem x) s r
        → item_place (generate_item_of x) ≡ place_at s }
    ensures branches { (x : Branch) (s r : List Token) → generates.Spells (generates.ABranch x) s r → x.at ≡ place_at s }
    ensures otherwise { (x : Branch) (s r : List Token) → generates.Spells (generates.AnOtherwise x) s r → x.at ≡ place_at s }
{}

/// Each name has the place of its own token: that of a module the one behind `module`, the names of a header's list and of `genvar`
/// every second one, that of an `input` of a header the last of the port, the clock the one behind `always @ ( posedge`, and the label
/// of a generate block the one behind `begin :`.
#[tactic(none)]
pub fn names_have_places()
    ensures modules { (x : ModuleBody) (s r : List Token) → modules.Spells (modules.AModule x) s r → x.name.at ≡ place_at (drop 1 s) }
    ensures ports { (xs : List Identifier) (s r : List Token) → headers.Spells (headers.PortList (ports.Names xs)) s r → StandApart xs s }
    ensures inputs { (at : Place) (net : PortNet) (x : Shape) (name : Identifier) (s r : List Token)
        → headers.Spells (headers.AHeaderPort (port.Input at net x name)) s r → StandsLast name s r }
    ensures genvars { (at : Place) (xs : List Identifier) (s r : List Token) → items.Spells (items.APlainItem (plain.Genvar at xs)) s r
        → StandApart xs (drop 1 s) }
    ensures clocks { (at : Place) (clock : Identifier) (x : Stmt) (s r : List Token)
        → items.Spells (items.APlainItem (plain.Clocked at clock x)) s r → clock.at ≡ place_at (drop 4 s) }
    ensures blocks { (at : Place) (label : Identifier) (xs : List GenerateItem) (s r : List Token)
        → generates.Spells (generates.ABlock at label xs) s r → label.at ≡ place_at (drop 2 s) }
{}
