// Expressions in their context.
ghost use Rattle.std.specs.Prelude.{◌≡◌, ◌&&◌, not, true, [], IfOk, IfErr};
ghost use Rattle.typed_ir.specs.Forms.{sized};
ghost use Rattle.verilog_ast.specs.Views.{expression_of};
ghost use Rattle.width_rules.specs.declared.due.Due.TheVariants.{ConstantOnly};
ghost use Rattle.width_rules.specs.Entries.{scope_of};
ghost use Rattle.width_rules.specs.Signs.{is_signed};
ghost use Rattle.width_rules.specs.Sizes.{length, push};
ghost use Rattle.width_rules.specs.Constants.{constant};
ghost use Rattle.width_rules.specs.Faults.{IsFirst, faults, sizing_faults, pushed_length};

use crate::due::Due;
use crate::faults::refused_of;
use crate::measuring::{measure, number};
use crate::opened::close;
use crate::scope::Scope;
use ls_text::Refusal;
use std::alloc::Global;
use typed_ir::{Const, Typed};
use verilog_ast::Expr;

/// An expression in its context. What goes down to its simple operands is the larger of its own length and `context`, in bits, and
/// its own sign, or unsigned where `unsigned` is set (IEEE Std 1364-2005, 5.4 and 5.5).
///
/// Faults, the first one from left to right: 29 UnknownName at a name that no expression can use; 25 NotConstant at a net or variable
/// in the width of a select, a bound of a part-select or a count; 26 BadRange at a width or count below 1; 31 TooWide at what has
/// more than 128 bits, and at the expression where `context` is above 128; 32 BadSelect at the name of a select that is reversed, lies
/// outside the declared range or is one of a constant. Else want of memory.
#[tactic(auto, using(crate::proofs::Firsts::earlier, crate::proofs::Firsts::later, crate::proofs::Firsts::neither, crate::proofs::Opening::pushed))]
pub fn size_expr(
    alloc: Global,
    scope: &Scope,
    e: &Expr,
    context: Option<u8>,
    unsigned: bool,
) -> Result<Typed, Refusal>
    ensures faultless { IfOk result (λ _. sizing_faults (scope_of scope.now) (expression_of e.now) context ≡ []) }
    ensures width { IfOk result (λ x. x.width ≡ pushed_length context (length (scope_of scope.now) (expression_of e.now))) }
    ensures form { IfOk result (λ x. sized x.form ≡ push (scope_of scope.now) (expression_of e.now) (pushed_length context (length (scope_of scope.now) (expression_of e.now))) (is_signed (scope_of scope.now) (expression_of e.now) && not unsigned)) }
    ensures fault { IfErr result (IsFirst (sizing_faults (scope_of scope.now) (expression_of e.now) context)) }
{
    let m = measure(alloc, scope, Due::AnyValue, e)?;
    let length = match context {
        Some(context) => context.max(m.length),
        None => m.length,
    };
    if length > 128 {
        return Err(refused_of(alloc, 31, e));
    }
    let signed = m.signed && !unsigned;
    Ok(close(alloc, m.form, length, signed)?)
}

/// The value of a constant expression, at its own length and sign, whatever its context (IEEE Std 1364-2005, 4.10 and 5.1).
///
/// Faults, the first one from left to right: 25 NotConstant at a net or variable, and else those of `size_expr`. Else want of memory.
pub fn constant(alloc: Global, scope: &Scope, e: &Expr) -> Result<Const, Refusal>
    ensures faultless { IfOk result (λ _. faults (scope_of scope.now) ConstantOnly (expression_of e.now) ≡ []) }
    ensures width { IfOk result (λ x. x.bits.width ≡ length (scope_of scope.now) (expression_of e.now)) }
    ensures signed { IfOk result (λ x. x.signed ≡ is_signed (scope_of scope.now) (expression_of e.now)) }
    ensures value { IfOk result (λ x. x.bits.value ≡ constant (scope_of scope.now) (expression_of e.now)) }
    ensures fault { IfErr result (IsFirst (faults (scope_of scope.now) ConstantOnly (expression_of e.now))) }
{
    number(alloc, scope, e)
}
