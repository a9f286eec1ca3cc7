// Ranges to how many bits they have.
ghost use Rattle.std.specs.Prelude.{◌≡◌, true, false, [], nat_lt, IfOk, IfErr, IfSome, MatchOption};
ghost use Rattle.verilog_ast.specs.Views.{expression_of, range_of};
ghost use Rattle.width_rules.specs.declared.due.Due.TheVariants.{ConstantOnly};
ghost use Rattle.width_rules.specs.Constants.{integer};
ghost use Rattle.width_rules.specs.Entries.{scope_of};
ghost use Rattle.width_rules.specs.Faults.{IsFirst, faults};
ghost use Rattle.width_rules.specs.Sizes.{bits_between};
ghost use Rattle.width_rules.specs.Wholes.{whole_of};
ghost use Rattle.gen_unroll.specs.Declarations.{is_range, lower_bound, range_value};
ghost use Rattle.ls_text.specs.Answers.{Answers};
ghost use Rattle.gen_unroll.specs.Views.{bit_range_of};

use crate::bit_range::BitRange;
use ls_text::Refusal;
use std::alloc::Global;
use verilog_ast::{Expr, Range};
use width_rules::{Scope, Whole, constant, refused_of, whole_number};

// The number that a bound is.
#[tactic(auto, using(crate::proofs::Values::is_integer))]
fn bound(alloc: Global, scope: &Scope, e: &Expr) -> Result<Whole, Refusal>
    ensures faultless { IfOk result (λ _. faults (scope_of scope.now) ConstantOnly (expression_of e.now) ≡ []) }
    ensures value { IfOk result (λ x. whole_of x ≡ integer (scope_of scope.now) (expression_of e.now)) }
    ensures fault { IfErr result (IsFirst (faults (scope_of scope.now) ConstantOnly (expression_of e.now))) }
{
    let value = constant(alloc, scope, e)?;
    Ok(whole_number(value.bits, value.signed))
}

// Whether two numbers are bounds of a range, the high one first.
fn is_range(high: Whole, low: Whole) -> bool
    ensures { result ≡ is_range (whole_of high) (whole_of low) }
{
    match (high, low) {
        (Whole::Natural(high), Whole::Natural(low)) => low <= high && high < 1 << 31,
        _ => false,
    }
}

// The range with these bounds; none where it has more than 128 bits.
fn range_between(high: Whole, low: Whole) -> Option<BitRange>
    requires { is_range (whole_of high) (whole_of low) ≡ true }
    ensures wide { MatchOption result (nat_lt 128 (bits_between (whole_of high) (whole_of low)) ≡ true) (λ _. nat_lt 128 (bits_between (whole_of high) (whole_of low)) ≡ false) }
    ensures width { IfSome result (λ r. r.width ≡ bits_between (whole_of high) (whole_of low)) }
    ensures low { IfSome result (λ r. r.low ≡ lower_bound (whole_of low)) }
{
    match (high, low) {
        (Whole::Natural(high), Whole::Natural(low)) => {
            let more = high - low;
            if more > 127 {
                return None;
            }
            Some(BitRange {
                width: more as u8 + 1,
                low: low as u32,
            })
        }
        _ => unreachable!(),
    }
}

/// The range of a declaration (IEEE Std 1364-2005, 3.3.1).
///
/// Faults: those of its bounds, the high one first; 26 BadRange where a bound lies below 0 or above 2^31 - 1 or the high one is below
/// the low one, and 31 TooWide where it has more than 128 bits, both at its first token. Else want of memory.
#[tactic(auto, using(crate::proofs::Bounds::ranges))]
pub fn range_value(alloc: Global, scope: &Scope, range: &Range) -> Result<BitRange, Refusal>
    ensures { Answers result bit_range_of (range_value (scope_of scope.now) (range_of range.now)) }
{
    let high = bound(alloc, scope, range.high.get())?;
    let low = bound(alloc, scope, range.low.get())?;
    if !is_range(high, low) {
        return Err(refused_of(alloc, 26, range.high.get()));
    }
    match range_between(high, low) {
        Some(range) => Ok(range),
        None => Err(refused_of(alloc, 31, range.high.get())),
    }
}
