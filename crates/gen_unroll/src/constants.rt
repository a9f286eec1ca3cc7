// Constant expressions.
ghost use Rattle.std.specs.Prelude.{◌≡◌};
ghost use Rattle.verilog_ast.specs.Views.{expression_of};
ghost use Rattle.width_rules.specs.Entries.{scope_of};
ghost use Rattle.ls_text.specs.Answers.{Answers};
ghost use Rattle.gen_unroll.specs.Values.{constant_of, evaluated};

use ls_text::Refusal;
use std::alloc::Global;
use typed_ir::Const;
use verilog_ast::Expr;
use width_rules::{Scope, constant};

/// A constant expression at its own length and sign, or its first fault, or want of memory.
#[tactic(auto, unfolding(crate::specs::Values::evaluated), using(crate::proofs::Values::is_value, crate::proofs::Values::is_first))]
pub fn evaluated(alloc: Global, scope: &Scope, e: &Expr) -> Result<Const, Refusal>
    ensures { Answers result constant_of (evaluated (scope_of scope.now) (expression_of e.now)) }
{
    match constant(alloc, scope, e) {
        Ok(value) => Ok(value),
        Err(refusal) => Err(refusal),
    }
}
