// Statements of blocks, sized.
ghost use Rattle.std.specs.Prelude.{◌≡◌, [], true, IfOk, IfErr};
ghost use Rattle.typed_ir.specs.Statements.{stmt_of};
ghost use Rattle.typed_ir.specs.Stmts.{is_clocked};
ghost use Rattle.verilog_ast.specs.Views.{statement_of};
ghost use Rattle.width_rules.specs.declared.writer.Writer.TheVariants as writer;
ghost use Rattle.width_rules.specs.Entries.{scope_of};
ghost use Rattle.width_rules.specs.Faults.{IsFirst};
ghost use Rattle.statement_rules.specs.Statements.{sized_statement, statement_faults};

use crate::checking::check;
use crate::statements::sized;
use ls_text::Refusal;
use std::alloc::Global;
use typed_ir::Stmt;
use verilog_ast::Stmt as Statement;
use width_rules::{Scope, Writer};

/// The statement of a clocked or a combinational block, sized: assignments at the larger of both lengths, by the sign of the value; a
/// case and its labels as long as the longest of them, and signed where all are (IEEE Std 1364-2005, 5.4, 5.5, 9.2, 9.4, 9.5). A
/// clocked block's assignments are nonblocking, a combinational block's blocking.
///
/// Faults: first those of all expressions from left to right, as of `size_expr`, with 29 UnknownName at a name of a target, 26
/// BadRange or 31 TooWide at a target that is a concatenation, and 31 at a literal with don't-care digits; and only then, in the order
/// of the text, 33 BadTarget at a name that such a block may not write, and 30 NameTwice at a second default of a case. Else want of
/// memory.
#[tactic(auto, using(width_rules::proofs::Firsts::earlier, width_rules::proofs::Firsts::later, width_rules::proofs::Firsts::neither, crate::proofs::Clocked::stays_clocked))]
pub fn size_stmt(alloc: Global, scope: &Scope, by: Writer, st: &Statement) -> Result<Stmt, Refusal>
    ensures faultless { IfOk result (λ _. statement_faults (scope_of scope.now) by (statement_of st.now) ≡ []) }
    ensures form { IfOk result (λ x. stmt_of x ≡ sized_statement (scope_of scope.now) by (statement_of st.now)) }
    ensures clocked { by ≡ writer.Clocked → IfOk result (λ x. is_clocked (stmt_of x) ≡ true) }
    ensures fault { IfErr result (IsFirst (statement_faults (scope_of scope.now) by (statement_of st.now))) }
{
    let form = sized(alloc, scope, by, st)?;
    match check(alloc, scope, by, st) {
        Ok(()) => Ok(form),
        Err(refusal) => Err(refusal),
    }
}
