// The first walk over an expression: its first fault from left to right, or its own length and sign and what its context may still
// change. Each part is walked once.
ghost use Rattle.std.specs.Prelude.{◌≡◌, ◌≤◌, ◌++◌, ◌==◌, true, false, [], min, map, IfOk, IfErr};
ghost use Rattle.typed_ir.specs.Forms.{sized};
ghost use Rattle.verilog_ast.specs.Expressions as e;
ghost use Rattle.verilog_ast.specs.Views.{expression_of, reference_of, parts_of};
ghost use Rattle.width_rules.specs.declared.due.Due.TheVariants.{ConstantOnly};
ghost use Rattle.width_rules.specs.Entries.{scope_of};
ghost use Rattle.width_rules.specs.Found.{meaning_of};
ghost use Rattle.width_rules.specs.Signs.{is_signed};
ghost use Rattle.width_rules.specs.Sizes.{length, is_constant, count_of};
ghost use Rattle.width_rules.specs.Constants.{constant, integer};
ghost use Rattle.width_rules.specs.Faults.{IsFirst, faults, fault_if, fault_of};
ghost use Rattle.width_rules.specs.Opened.{opened, open_of, own, Simple};
ghost use Rattle.width_rules.specs.Joins.{joined_of, joins, Nothing};
ghost use Rattle.width_rules.specs.Faults.{name_faults};
ghost use Rattle.width_rules.specs.Runs.{run_select_faults, run_bits, is_constant_run};

use crate::combining::{calculated, chosen, compared, one_bit, shifted, tested};
use crate::direction::{Direction, down_of};
use crate::due::Due;
use crate::faults::{refused, refused_of};
use crate::joined::Joined;
use crate::joined_parts::JoinedParts;
use crate::joining::beside;
use crate::kinds::UnaryKind;
use crate::measured::Measured;
use crate::opened::{Open, close};
use crate::operators::{operator_of, unary_kind};
use crate::scope::Scope;
use crate::selecting::{known, range, reach, selected, whole, width_of};
use crate::self_determined::Own;
use crate::whole::{count_of, whole_number};
use bits::Bits;
use ls_text::{NoMemory, Place, Refusal};
use std::alloc::Global;
use typed_ir::{BinaryOperator, Const, Typed, UnaryOperator};
use verilog_ast::{
    BinaryOperator as Written, Child, Expr, Identifier, Number, Reference,
    UnaryOperator as WrittenBefore,
};

/// What an expression is before its context's length and sign go down; or its first fault, or want of memory. `due` says that a
/// constant is due: then 25 at a net or variable.
#[tactic(auto, using(crate::proofs::Firsts::earlier, crate::proofs::Firsts::later, crate::proofs::Firsts::neither, crate::proofs::Lengths::bracketed_is))]
#[cycle(measure)]
pub fn measure(alloc: Global, scope: &Scope, due: Due, e: &Expr) -> Result<Measured, Refusal>
    ensures faultless { IfOk result (λ m. faults (scope_of scope.now) due (expression_of e.now) ≡ []) }
    ensures length { IfOk result (λ m. m.length ≡ length (scope_of scope.now) (expression_of e.now)) }
    ensures signed { IfOk result (λ m. m.signed ≡ is_signed (scope_of scope.now) (expression_of e.now)) }
    ensures constant { IfOk result (λ m. m.constant ≡ is_constant (scope_of scope.now) (expression_of e.now)) }
    ensures form { IfOk result (λ m. opened m.form ≡ open_of (scope_of scope.now) (expression_of e.now)) }
    ensures fault { IfErr result (IsFirst (faults (scope_of scope.now) due (expression_of e.now))) }
{
    match e {
        Expr::Number(at, number) => literal(alloc, scope, due, *at, *number),
        Expr::Read(reference) => read(alloc, scope, due, reference),
        Expr::Unary(at, op, a) => unary(alloc, scope, due, *at, *op, a.get()),
        Expr::Binary(op, a, b) => binary(alloc, scope, due, *op, a.get(), b.get()),
        Expr::Conditional(c, a, b) => conditional(alloc, scope, due, c.get(), a.get(), b.get()),
        Expr::Concatenation(at, parts) => concatenation(alloc, scope, due, *at, parts.as_slice()),
        Expr::Replication(at, count, parts) => {
            replication(alloc, scope, due, *at, parts.as_slice(), count.get())
        }
        Expr::Bracketed(_, inner) => measure(alloc, scope, due, inner.get()),
    }
}

/// An expression at its own length and sign; or its first fault, or want of memory.
#[tactic(auto, using(crate::proofs::Firsts::earlier, crate::proofs::Firsts::later, crate::proofs::Firsts::neither, crate::proofs::Opening::owned, crate::proofs::Reading::own_reads))]
#[cycle(measure)]
pub fn own(alloc: Global, scope: &Scope, due: Due, e: &Expr) -> Result<Own, Refusal>
    ensures faultless { IfOk result (λ x. faults (scope_of scope.now) due (expression_of e.now) ≡ []) }
    ensures width { IfOk result (λ x. x.typed.width ≡ length (scope_of scope.now) (expression_of e.now)) }
    ensures signed { IfOk result (λ x. x.signed ≡ is_signed (scope_of scope.now) (expression_of e.now)) }
    ensures constant { IfOk result (λ x. x.constant ≡ is_constant (scope_of scope.now) (expression_of e.now)) }
    ensures form { IfOk result (λ x. sized x.typed.form ≡ own (scope_of scope.now) (expression_of e.now)) }
    ensures fault { IfErr result (IsFirst (faults (scope_of scope.now) due (expression_of e.now))) }
{
    let m = measure(alloc, scope, due, e)?;
    let typed = close(alloc, m.form, m.length, m.signed)?;
    Ok(Own {
        typed: Child::new(alloc, typed)?,
        signed: m.signed,
        constant: m.constant,
    })
}

/// The value of a constant expression; or its first fault, or want of memory.
#[tactic(auto, using(crate::proofs::Firsts::earlier, crate::proofs::Firsts::later, crate::proofs::Firsts::neither, crate::proofs::Reading::number_reads))]
#[cycle(measure)]
pub fn number(alloc: Global, scope: &Scope, e: &Expr) -> Result<Const, Refusal>
    ensures faultless { IfOk result (λ x. faults (scope_of scope.now) ConstantOnly (expression_of e.now) ≡ []) }
    ensures width { IfOk result (λ x. x.bits.width ≡ length (scope_of scope.now) (expression_of e.now)) }
    ensures signed { IfOk result (λ x. x.signed ≡ is_signed (scope_of scope.now) (expression_of e.now)) }
    ensures value { IfOk result (λ x. x.bits.value ≡ constant (scope_of scope.now) (expression_of e.now)) }
    ensures fault { IfErr result (IsFirst (faults (scope_of scope.now) ConstantOnly (expression_of e.now))) }
{
    let x = own(alloc, scope, Due::ConstantOnly, e)?;
    Ok(Const {
        bits: x.typed.get().form.value(&[]),
        signed: x.signed,
    })
}

// A number.
#[tactic(auto, using(crate::proofs::Firsts::earlier, crate::proofs::Firsts::later, crate::proofs::Firsts::neither, crate::proofs::Lengths::literal_is))]
fn literal(
    alloc: Global,
    scope: &Scope,
    due: Due,
    at: Place,
    number: Number,
) -> Result<Measured, Refusal>
    ensures faultless { IfOk result (λ m. faults (scope_of scope.now) due (e.Literal at number) ≡ []) }
    ensures length { IfOk result (λ m. m.length ≡ length (scope_of scope.now) (e.Literal at number)) }
    ensures signed { IfOk result (λ m. m.signed ≡ is_signed (scope_of scope.now) (e.Literal at number)) }
    ensures constant { IfOk result (λ m. m.constant ≡ is_constant (scope_of scope.now) (e.Literal at number)) }
    ensures form { IfOk result (λ m. opened m.form ≡ open_of (scope_of scope.now) (e.Literal at number)) }
    ensures fault { IfErr result (IsFirst (faults (scope_of scope.now) due (e.Literal at number))) }
{
    let length = if number.size == 0 { 32 } else { number.size };
    if length > 128 {
        return Err(refused(alloc, 31, at, None));
    }
    Ok(Measured {
        length,
        signed: number.signed,
        constant: true,
        form: Child::new(alloc, Open::Number(Bits::new(length, number.value)))?,
    })
}

// An operator before its operand.
#[tactic(auto, using(crate::proofs::Firsts::earlier, crate::proofs::Firsts::later, crate::proofs::Firsts::neither, crate::proofs::Lengths::unary_is))]
#[cycle(measure)]
fn unary(
    alloc: Global,
    scope: &Scope,
    due: Due,
    at: Place,
    op: WrittenBefore,
    a: &Expr,
) -> Result<Measured, Refusal>
    ensures faultless { IfOk result (λ m. faults (scope_of scope.now) due (e.Unary at op (expression_of a.now)) ≡ []) }
    ensures length { IfOk result (λ m. m.length ≡ length (scope_of scope.now) (e.Unary at op (expression_of a.now))) }
    ensures signed { IfOk result (λ m. m.signed ≡ is_signed (scope_of scope.now) (e.Unary at op (expression_of a.now))) }
    ensures constant { IfOk result (λ m. m.constant ≡ is_constant (scope_of scope.now) (e.Unary at op (expression_of a.now))) }
    ensures form { IfOk result (λ m. opened m.form ≡ open_of (scope_of scope.now) (e.Unary at op (expression_of a.now))) }
    ensures fault { IfErr result (IsFirst (faults (scope_of scope.now) due (e.Unary at op (expression_of a.now)))) }
{
    match unary_kind(op) {
        UnaryKind::Kept => measure(alloc, scope, due, a),
        UnaryKind::Negated => {
            let a = measure(alloc, scope, due, a)?;
            Ok(Measured {
                length: a.length,
                signed: a.signed,
                constant: a.constant,
                form: Child::new(alloc, Open::Negative(a.form))?,
            })
        }
        UnaryKind::Inverted => {
            let a = measure(alloc, scope, due, a)?;
            Ok(Measured {
                length: a.length,
                signed: a.signed,
                constant: a.constant,
                form: Child::new(alloc, Open::Inverse(a.form))?,
            })
        }
        UnaryKind::OneBit(op) => {
            let a = own(alloc, scope, due, a)?;
            let constant = a.constant;
            let typed = Typed::unary(alloc, op, a.typed.into_inner())?;
            Ok(one_bit(alloc, typed, constant)?)
        }
        UnaryKind::Complement(op) => {
            let a = own(alloc, scope, due, a)?;
            let constant = a.constant;
            let test = Typed::unary(alloc, op, a.typed.into_inner())?;
            let typed = Typed::unary(alloc, UnaryOperator::Inverse, test)?;
            Ok(one_bit(alloc, typed, constant)?)
        }
    }
}

// An operator between its operands.
#[tactic(auto, using(crate::proofs::Firsts::earlier, crate::proofs::Firsts::later, crate::proofs::Firsts::neither, crate::proofs::Lengths::binary_is))]
#[cycle(measure)]
fn binary(
    alloc: Global,
    scope: &Scope,
    due: Due,
    op: Written,
    a: &Expr,
    b: &Expr,
) -> Result<Measured, Refusal>
    ensures faultless { IfOk result (λ m. faults (scope_of scope.now) due (e.Binary op (expression_of a.now) (expression_of b.now)) ≡ []) }
    ensures length { IfOk result (λ m. m.length ≡ length (scope_of scope.now) (e.Binary op (expression_of a.now) (expression_of b.now))) }
    ensures signed { IfOk result (λ m. m.signed ≡ is_signed (scope_of scope.now) (e.Binary op (expression_of a.now) (expression_of b.now))) }
    ensures constant { IfOk result (λ m. m.constant ≡ is_constant (scope_of scope.now) (e.Binary op (expression_of a.now) (expression_of b.now))) }
    ensures form { IfOk result (λ m. opened m.form ≡ open_of (scope_of scope.now) (e.Binary op (expression_of a.now) (expression_of b.now))) }
    ensures fault { IfErr result (IsFirst (faults (scope_of scope.now) due (e.Binary op (expression_of a.now) (expression_of b.now)))) }
{
    match operator_of(op) {
        BinaryOperator::Arithmetic(op) => {
            let left = measure(alloc, scope, due, a)?;
            let right = measure(alloc, scope, due, b)?;
            Ok(calculated(alloc, op, left, right)?)
        }
        BinaryOperator::Shift(op) => {
            let operand = measure(alloc, scope, due, a)?;
            let by = own(alloc, scope, due, b)?;
            Ok(shifted(alloc, op, operand, by)?)
        }
        BinaryOperator::Compare(op) => {
            let a = measure(alloc, scope, due, a)?;
            let b = measure(alloc, scope, due, b)?;
            Ok(compared(alloc, op, a, b)?)
        }
        BinaryOperator::Logical(op) => {
            let a = own(alloc, scope, due, a)?;
            let b = own(alloc, scope, due, b)?;
            Ok(tested(alloc, op, a, b)?)
        }
    }
}

// `c ? a : b`
#[tactic(auto, using(crate::proofs::Firsts::earlier, crate::proofs::Firsts::later, crate::proofs::Firsts::neither, crate::proofs::Lengths::conditional_is))]
#[cycle(measure)]
fn conditional(
    alloc: Global,
    scope: &Scope,
    due: Due,
    c: &Expr,
    a: &Expr,
    b: &Expr,
) -> Result<Measured, Refusal>
    ensures faultless { IfOk result (λ m. faults (scope_of scope.now) due (e.Conditional (expression_of c.now) (expression_of a.now) (expression_of b.now)) ≡ []) }
    ensures length { IfOk result (λ m. m.length ≡ length (scope_of scope.now) (e.Conditional (expression_of c.now) (expression_of a.now) (expression_of b.now))) }
    ensures signed { IfOk result (λ m. m.signed ≡ is_signed (scope_of scope.now) (e.Conditional (expression_of c.now) (expression_of a.now) (expression_of b.now))) }
    ensures constant { IfOk result (λ m. m.constant ≡ is_constant (scope_of scope.now) (e.Conditional (expression_of c.now) (expression_of a.now) (expression_of b.now))) }
    ensures form { IfOk result (λ m. opened m.form ≡ open_of (scope_of scope.now) (e.Conditional (expression_of c.now) (expression_of a.now) (expression_of b.now))) }
    ensures fault { IfErr result (IsFirst (faults (scope_of scope.now) due (e.Conditional (expression_of c.now) (expression_of a.now) (expression_of b.now)))) }
{
    let condition = measure(alloc, scope, due, c)?;
    let yes = measure(alloc, scope, due, a)?;
    let no = measure(alloc, scope, due, b)?;
    Ok(chosen(alloc, condition, yes, no)?)
}

// A name with its select or without; or the first fault, or want of memory.
#[tactic(auto, using(crate::proofs::Firsts::earlier, crate::proofs::Firsts::later, crate::proofs::Firsts::neither, crate::proofs::Lengths::upward_is, crate::proofs::Lengths::downward_is))]
#[cycle(measure)]
fn read(alloc: Global, scope: &Scope, due: Due, reference: &Reference) -> Result<Measured, Refusal>
    ensures faultless { IfOk result (λ m. faults (scope_of scope.now) due (reference_of reference.now) ≡ []) }
    ensures length { IfOk result (λ m. m.length ≡ length (scope_of scope.now) (reference_of reference.now)) }
    ensures signed { IfOk result (λ m. m.signed ≡ is_signed (scope_of scope.now) (reference_of reference.now)) }
    ensures constant { IfOk result (λ m. m.constant ≡ is_constant (scope_of scope.now) (reference_of reference.now)) }
    ensures form { IfOk result (λ m. opened m.form ≡ open_of (scope_of scope.now) (reference_of reference.now)) }
    ensures fault { IfErr result (IsFirst (faults (scope_of scope.now) due (reference_of reference.now))) }
{
    match reference {
        Reference::Whole(name) => whole(alloc, scope, due, *name),
        Reference::Bit(name, index) => bit(alloc, scope, due, *name, index.get()),
        Reference::Part(name, high, low) => part(alloc, scope, due, *name, high.get(), low.get()),
        Reference::Upward(name, base, width) => {
            let direction = Direction::Upward;
            run(alloc, scope, due, direction, *name, base.get(), width.get())
        }
        Reference::Downward(name, base, width) => {
            let direction = Direction::Downward;
            run(alloc, scope, due, direction, *name, base.get(), width.get())
        }
    }
}

// `x[i]`
#[tactic(auto, using(crate::proofs::Firsts::earlier, crate::proofs::Firsts::later, crate::proofs::Firsts::neither, crate::proofs::Lengths::bit_is))]
#[cycle(measure)]
fn bit(
    alloc: Global,
    scope: &Scope,
    due: Due,
    name: Identifier,
    a: &Expr,
) -> Result<Measured, Refusal>
    ensures faultless { IfOk result (λ m. faults (scope_of scope.now) due (e.BitSelect name (expression_of a.now)) ≡ []) }
    ensures length { IfOk result (λ m. m.length ≡ length (scope_of scope.now) (e.BitSelect name (expression_of a.now))) }
    ensures signed { IfOk result (λ m. m.signed ≡ is_signed (scope_of scope.now) (e.BitSelect name (expression_of a.now))) }
    ensures constant { IfOk result (λ m. m.constant ≡ is_constant (scope_of scope.now) (e.BitSelect name (expression_of a.now))) }
    ensures form { IfOk result (λ m. opened m.form ≡ open_of (scope_of scope.now) (e.BitSelect name (expression_of a.now))) }
    ensures fault { IfErr result (IsFirst (faults (scope_of scope.now) due (e.BitSelect name (expression_of a.now)))) }
{
    let entry = known(alloc, scope, due, name)?;
    let index = own(alloc, scope, due, a)?;
    let taken = reach(alloc, entry, name, 1, 0, index)?;
    Ok(selected(alloc, taken)?)
}

// `x[base +: width]` or `x[base -: width]`
#[cycle(measure)]
fn run(
    alloc: Global,
    scope: &Scope,
    due: Due,
    direction: Direction,
    name: Identifier,
    a: &Expr,
    b: &Expr,
) -> Result<Measured, Refusal>
    ensures faultless { IfOk result (λ m. run_select_faults (name_faults (scope_of scope.now name.name.0) due name) (scope_of scope.now) due direction name (expression_of a.now) (expression_of b.now) ≡ []) }
    ensures length { IfOk result (λ m. m.length ≡ count_of (integer (scope_of scope.now) (expression_of b.now))) }
    ensures signed { IfOk result (λ m. m.signed ≡ false) }
    ensures constant { IfOk result (λ m. m.constant ≡ is_constant_run (scope_of scope.now) name (expression_of a.now) (expression_of b.now)) }
    ensures form { IfOk result (λ m. opened m.form ≡ Simple (run_bits (scope_of scope.now) direction name (expression_of a.now) (expression_of b.now))) }
    ensures fault { IfErr result (IsFirst (run_select_faults (name_faults (scope_of scope.now name.name.0) due name) (scope_of scope.now) due direction name (expression_of a.now) (expression_of b.now))) }
{
    let entry = known(alloc, scope, due, name)?;
    let base = own(alloc, scope, due, a)?;
    let found = number(alloc, scope, b)?;
    let width = width_of(alloc, name, b, found)?;
    let taken = reach(alloc, entry, name, width, down_of(direction, width), base)?;
    Ok(selected(alloc, taken)?)
}

// `x[high:low]`
#[tactic(auto, using(crate::proofs::Firsts::earlier, crate::proofs::Firsts::later, crate::proofs::Firsts::neither))]
#[cycle(measure)]
fn part(
    alloc: Global,
    scope: &Scope,
    due: Due,
    name: Identifier,
    a: &Expr,
    b: &Expr,
) -> Result<Measured, Refusal>
    ensures faultless { IfOk result (λ m. faults (scope_of scope.now) due (e.PartSelect name (expression_of a.now) (expression_of b.now)) ≡ []) }
    ensures length { IfOk result (λ m. m.length ≡ length (scope_of scope.now) (e.PartSelect name (expression_of a.now) (expression_of b.now))) }
    ensures signed { IfOk result (λ m. m.signed ≡ is_signed (scope_of scope.now) (e.PartSelect name (expression_of a.now) (expression_of b.now))) }
    ensures constant { IfOk result (λ m. m.constant ≡ is_constant (scope_of scope.now) (e.PartSelect name (expression_of a.now) (expression_of b.now))) }
    ensures form { IfOk result (λ m. opened m.form ≡ open_of (scope_of scope.now) (e.PartSelect name (expression_of a.now) (expression_of b.now))) }
    ensures fault { IfErr result (IsFirst (faults (scope_of scope.now) due (e.PartSelect name (expression_of a.now) (expression_of b.now)))) }
{
    let entry = known(alloc, scope, due, name)?;
    let high = number(alloc, scope, a)?;
    let low = number(alloc, scope, b)?;
    let high = whole_number(high.bits, high.signed);
    let low = whole_number(low.bits, low.signed);
    let taken = range(alloc, entry, name, high, low)?;
    Ok(selected(alloc, taken)?)
}

// The parts of a concatenation from left to right, each at its own length and sign.
#[tactic(auto, using(crate::proofs::Firsts::earlier, crate::proofs::Firsts::later, crate::proofs::Firsts::neither, crate::proofs::Stepping::ahead_next, crate::proofs::Stepping::fault_next, crate::proofs::Stepping::fixed_next, crate::proofs::Stepping::together_next))]
#[cycle(measure)]
fn all_parts(alloc: Global, scope: &Scope, due: Due, parts: &[Expr]) -> Result<JoinedParts, Refusal>
    ensures faultless { IfOk result (λ x. faults (scope_of scope.now) due (parts_of (map expression_of parts.now)) ≡ []) }
    ensures joined { IfOk result (λ x. joined_of x.joined ≡ joins (scope_of scope.now) Nothing (map expression_of parts.now)) }
    ensures constant { IfOk result (λ x. x.constant ≡ is_constant (scope_of scope.now) (parts_of (map expression_of parts.now))) }
    ensures fault { IfErr result (IsFirst (faults (scope_of scope.now) due (parts_of (map expression_of parts.now)))) }
{
    let mut joined = Joined::Nothing;
    let mut constant = true;
    for part in parts {
        let part = own(alloc, scope, due, part)?;
        constant = constant && part.constant;
        joined = beside(alloc, joined, part)?;
    }
    Ok(JoinedParts { joined, constant })
}

// `{a, b}`: 26 without a part, 31 above 128 bits.
#[tactic(auto, using(crate::proofs::Firsts::earlier, crate::proofs::Firsts::later, crate::proofs::Firsts::neither, crate::proofs::Lengths::concatenation_is, crate::proofs::Stepping::bits_are, crate::proofs::Stepping::none_are, crate::proofs::Stepping::wide_are, crate::proofs::Stepping::width_fine, crate::proofs::Stepping::width_none, crate::proofs::Stepping::width_wide))]
#[cycle(measure)]
fn concatenation(
    alloc: Global,
    scope: &Scope,
    due: Due,
    at: Place,
    parts: &[Expr],
) -> Result<Measured, Refusal>
    ensures faultless { IfOk result (λ m. faults (scope_of scope.now) due (e.Concatenation at (parts_of (map expression_of parts.now))) ≡ []) }
    ensures length { IfOk result (λ m. m.length ≡ length (scope_of scope.now) (e.Concatenation at (parts_of (map expression_of parts.now)))) }
    ensures signed { IfOk result (λ m. m.signed ≡ is_signed (scope_of scope.now) (e.Concatenation at (parts_of (map expression_of parts.now)))) }
    ensures constant { IfOk result (λ m. m.constant ≡ is_constant (scope_of scope.now) (e.Concatenation at (parts_of (map expression_of parts.now)))) }
    ensures form { IfOk result (λ m. opened m.form ≡ open_of (scope_of scope.now) (e.Concatenation at (parts_of (map expression_of parts.now)))) }
    ensures fault { IfErr result (IsFirst (faults (scope_of scope.now) due (e.Concatenation at (parts_of (map expression_of parts.now))))) }
{
    let JoinedParts { joined, constant } = all_parts(alloc, scope, due, parts)?;
    match joined {
        Joined::Nothing => Err(refused(alloc, 26, at, None)),
        Joined::TooWide => Err(refused(alloc, 31, at, None)),
        Joined::Bits(bits) => Ok(Measured {
            length: bits.typed.get().width,
            signed: false,
            constant,
            form: Child::new(alloc, Open::Simple(bits.typed))?,
        }),
    }
}

// `{n{a, b}}`: 26 where the count is below 1, 31 above 128 bits.
#[tactic(auto, using(crate::proofs::Firsts::earlier, crate::proofs::Firsts::later, crate::proofs::Firsts::neither, crate::proofs::Lengths::replication_is, crate::proofs::Stepping::bits_are, crate::proofs::Stepping::none_are, crate::proofs::Stepping::wide_are, crate::proofs::Stepping::width_fine, crate::proofs::Stepping::width_none, crate::proofs::Stepping::width_wide))]
#[cycle(measure)]
fn replication(
    alloc: Global,
    scope: &Scope,
    due: Due,
    at: Place,
    parts: &[Expr],
    count: &Expr,
) -> Result<Measured, Refusal>
    ensures faultless { IfOk result (λ m. faults (scope_of scope.now) due (e.Replication at (expression_of count.now) (parts_of (map expression_of parts.now))) ≡ []) }
    ensures length { IfOk result (λ m. m.length ≡ length (scope_of scope.now) (e.Replication at (expression_of count.now) (parts_of (map expression_of parts.now)))) }
    ensures signed { IfOk result (λ m. m.signed ≡ is_signed (scope_of scope.now) (e.Replication at (expression_of count.now) (parts_of (map expression_of parts.now)))) }
    ensures constant { IfOk result (λ m. m.constant ≡ is_constant (scope_of scope.now) (e.Replication at (expression_of count.now) (parts_of (map expression_of parts.now)))) }
    ensures form { IfOk result (λ m. opened m.form ≡ open_of (scope_of scope.now) (e.Replication at (expression_of count.now) (parts_of (map expression_of parts.now)))) }
    ensures fault { IfErr result (IsFirst (faults (scope_of scope.now) due (e.Replication at (expression_of count.now) (parts_of (map expression_of parts.now))))) }
{
    let found = number(alloc, scope, count)?;
    let times = count_of(whole_number(found.bits, found.signed));
    if times == 0 {
        return Err(refused_of(alloc, 26, count));
    }
    let copied = all_parts(alloc, scope, due, parts)?;
    let JoinedParts { joined, constant } = copied;
    match joined {
        Joined::Nothing => Err(refused(alloc, 26, at, None)),
        Joined::TooWide => Err(refused(alloc, 31, at, None)),
        Joined::Bits(bits) => {
            let part = bits.typed.into_inner();
            if u32::from(times) * u32::from(part.width) > 128 {
                return Err(refused(alloc, 31, at, None));
            }
            let repeated = Typed::repeat(alloc, times, part)?;
            Ok(Measured {
                length: repeated.width,
                signed: false,
                constant,
                form: Child::new(alloc, Open::Simple(Child::new(alloc, repeated)?))?,
            })
        }
    }
}
