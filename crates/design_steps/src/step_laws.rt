// What laid out steps do.
ghost use Rattle.std.specs.Prelude.{◌≡◌, ◌≤◌, ℕ, List, IsTrue};
ghost use Rattle.typed_ir.specs.Valuations.{Valuation};
ghost use Rattle.typed_ir.specs.Orders.{Each, pass};
ghost use Rattle.typed_ir.specs.Sized.{Sized, value_of};
ghost use Rattle.typed_ir.specs.Stmts.{SizedStmt, is_sized, exec, pending};
ghost use Rattle.typed_ir.specs.Nodes.{FlatNode, drive};
ghost use Rattle.design_steps.specs.Plans.{Plan, IsApart, IsReady, IsKnown, signals};
ghost use Rattle.design_steps.specs.Expressions.{code, constants_of};
ghost use Rattle.design_steps.specs.Statements.{stmt_code};
ghost use Rattle.design_steps.specs.Nodes.{nodes_code, all_later};
ghost use Rattle.design_steps.specs.Right.{Puts, Leaves, IsLaid, IsLaidNode};
ghost use Rattle.design_steps.specs.Sizes.{are_sized};

/// The steps of an expression put its value at their place, and change nothing else below the mark.
pub fn expressions_are_right()
    ensures { (l : Plan) (registers : List ℕ) (n to mark : ℕ) (e : Sized) (w : Valuation) → IsApart l registers n → IsReady l registers w
        → IsTrue (is_sized e l.widths) → Each (IsKnown l) (constants_of e) → n ≤ mark
        → Puts (code l e to mark) w to mark (value_of e (signals l w)) }
{}

/// The steps of a statement leave the signals as its blocking assignments do, and next values as its nonblocking ones do.
pub fn statements_are_right()
    ensures { (l : Plan) (registers : List ℕ) (n mark : ℕ) (st : SizedStmt) (w : Valuation) → IsApart l registers n → IsReady l registers w
        → IsLaid l registers st → n ≤ mark
        → Leaves l registers (stmt_code l st mark) w n (exec st (signals l w)) (pending st (signals l w)) }
{}

/// The steps of nodes leave the signals as the nodes do that are evaluated in place, one after another.
pub fn nodes_are_right()
    ensures { (l : Plan) (registers : List ℕ) (n mark : ℕ) (nodes : List FlatNode) (w : Valuation) → IsApart l registers n → IsReady l registers w
        → Each (IsLaidNode l registers) nodes → n ≤ mark
        → Leaves l registers (nodes_code l nodes mark) w n (pass drive nodes (signals l w)) (all_later nodes (signals l w)) }
{}

/// The steps of a statement, and those of nodes, fit the words that they take.
pub fn steps_are_sized()
    ensures statements { (l : Plan) (registers : List ℕ) (n mark : ℕ) (st : SizedStmt) → IsApart l registers n → IsLaid l registers st
        → IsTrue (are_sized (stmt_code l st mark)) }
    ensures nodes { (l : Plan) (registers : List ℕ) (n mark : ℕ) (nodes : List FlatNode) → IsApart l registers n → Each (IsLaidNode l registers) nodes
        → IsTrue (are_sized (nodes_code l nodes mark)) }
{}
