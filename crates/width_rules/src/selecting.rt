// Names that are read, and selects, read or written.
ghost use Rattle.std.specs.Prelude.{◌≡◌, ◌≤◌, ◌+◌, ℕ, true, false, [], IfOk, IfErr};
ghost use Rattle.typed_ir.specs.Forms.{sized};
ghost use Rattle.typed_ir.specs.Sized.{value_of};
ghost use Rattle.typed_ir.specs.Targets.{target_of};
ghost use Rattle.verilog_ast.specs.Expressions as e;
ghost use Rattle.verilog_ast.specs.Views.{expression_of};
ghost use Rattle.width_rules.specs.Entries.{scope_of};
ghost use Rattle.width_rules.specs.Faults.{IsFirst, faults, name_faults, run_faults, part_faults, width_faults};
ghost use Rattle.width_rules.specs.Found.{meaning_of};
ghost use Rattle.width_rules.specs.Opened.{opened, open_of, Simple};
ghost use Rattle.width_rules.specs.References.{known_part, part_at, part_from, read_part};
ghost use Rattle.width_rules.specs.Scopes.{is_signal};
ghost use Rattle.width_rules.specs.Signs.{is_signed};
ghost use Rattle.width_rules.specs.Sizes.{length, is_constant, count_of, bits_at, bits_from, bits_between, read_as, no_signals};
ghost use Rattle.width_rules.specs.Wholes.{whole_of};

use crate::due::Due;
use crate::entry::Entry;
use crate::faults::{refused_at, refused_of};
use crate::measured::Measured;
use crate::opened::Open;
use crate::scope::Scope;
use crate::self_determined::Own;
use crate::target_part::TargetPart;
use crate::whole::{Whole, bits_between, count_of, low_bit, whole_number};
use ls_text::{NoMemory, Refusal};
use std::alloc::Global;
use typed_ir::{Const, Lane, Reach, SignalId, Span, Target, Typed};
use verilog_ast::{Child, Expr, Identifier};

/// What a name is that an expression may use: else 29, or 25 where a constant is due.
pub fn known(alloc: Global, scope: &Scope, due: Due, name: Identifier) -> Result<Entry, Refusal>
    ensures faultless { IfOk result (λ _. name_faults (scope_of scope.now name.name.0) due name ≡ []) }
    ensures meaning { IfOk result (λ entry. meaning_of entry ≡ scope_of scope.now name.name.0) }
    ensures fault { IfErr result (IsFirst (name_faults (scope_of scope.now name.name.0) due name)) }
{
    let entry = scope.find(name.name);
    match entry {
        Entry::Signal(_) => {
            match due {
                Due::AnyValue => Ok(entry),
                Due::ConstantOnly => Err(refused_at(alloc, 25, name)),
            }
        }
        Entry::Constant(_) | Entry::Turn(_) => Ok(entry),
        Entry::Genvar | Entry::Unknown => Err(refused_at(alloc, 29, name)),
    }
}

/// A name without a select.
#[tactic(auto, using(crate::proofs::Firsts::earlier, crate::proofs::Firsts::later, crate::proofs::Firsts::neither, crate::proofs::Lengths::whole_is))]
pub fn whole(alloc: Global, scope: &Scope, due: Due, name: Identifier) -> Result<Measured, Refusal>
    ensures faultless { IfOk result (λ m. faults (scope_of scope.now) due (e.Whole name) ≡ []) }
    ensures length { IfOk result (λ m. m.length ≡ length (scope_of scope.now) (e.Whole name)) }
    ensures signed { IfOk result (λ m. m.signed ≡ is_signed (scope_of scope.now) (e.Whole name)) }
    ensures constant { IfOk result (λ m. m.constant ≡ is_constant (scope_of scope.now) (e.Whole name)) }
    ensures form { IfOk result (λ m. opened m.form ≡ open_of (scope_of scope.now) (e.Whole name)) }
    ensures fault { IfErr result (IsFirst (faults (scope_of scope.now) due (e.Whole name))) }
{
    match scope.find(name.name) {
        Entry::Signal(x) => match due {
            Due::AnyValue => {
                let typed = Child::new(alloc, Typed::name(x.signal, x.width))?;
                Ok(Measured {
                    length: x.width,
                    signed: x.signed,
                    constant: false,
                    form: Child::new(alloc, Open::Simple(typed))?,
                })
            }
            Due::ConstantOnly => Err(refused_at(alloc, 25, name)),
        },
        Entry::Constant(x) | Entry::Turn(x) => Ok(Measured {
            length: x.bits.width,
            signed: x.signed,
            constant: true,
            form: Child::new(alloc, Open::Number(x.bits))?,
        }),
        Entry::Genvar | Entry::Unknown => Err(refused_at(alloc, 29, name)),
    }
}

/// What a select that is read gives: unsigned bits of a net or variable.
pub fn selected(alloc: Global, part: TargetPart) -> Result<Measured, NoMemory>
    ensures length { IfOk result (λ m. m.length ≡ part.width) }
    ensures signed { IfOk result (λ m. m.signed ≡ false) }
    ensures constant { IfOk result (λ m. m.constant ≡ false) }
    ensures form { IfOk result (λ m. opened m.form ≡ Simple (read_part (target_of part.target))) }
{
    let TargetPart { target, width } = part;
    let typed = match target {
        Target::Fixed(lane) => Child::new(alloc, Typed::part(lane.span))?,
        Target::Moving { reach, index } => {
            let picked = Typed::pick(
                alloc,
                reach.signal,
                reach.width,
                reach.below,
                reach.signed,
                index,
            )?;
            Child::new(alloc, picked)?
        }
    };
    Ok(Measured {
        length: width,
        signed: false,
        constant: false,
        form: Child::new(alloc, Open::Simple(typed))?,
    })
}

/// Bits of a signal that are known.
pub fn bits_of(signal: SignalId, low: u8, width: u8) -> TargetPart
    requires some { 1 ≤ width }
    requires within { low + width ≤ 128 }
    ensures width { result.width ≡ width }
    ensures part { target_of result.target ≡ known_part 0 signal low width }
{
    let span = Span { signal, low, width };
    TargetPart {
        target: Target::Fixed(Lane { shift: 0, span }),
        width,
    }
}

/// `width` bits from an index on, less `down`: known ones where the index is constant. 32 where they don't lie in the declared range,
/// or the name has no bits to select.
pub fn reach(
    alloc: Global,
    entry: Entry,
    name: Identifier,
    width: u8,
    down: u8,
    index: Own,
) -> Result<TargetPart, Refusal>
    requires some { 1 ≤ width }
    requires few { width ≤ 128 }
    ensures faultless { IfOk result (λ _. run_faults (meaning_of entry) index.constant (read_as index.signed index.typed.width (value_of (sized index.typed.form) no_signals)) width down name ≡ []) }
    ensures signal { IfOk result (λ _. is_signal (meaning_of entry) ≡ true) }
    ensures width { IfOk result (λ x. x.width ≡ width) }
    ensures read { IfOk result (λ x. read_part (target_of x.target) ≡ bits_at (meaning_of entry) width down index.constant (read_as index.signed index.typed.width (value_of (sized index.typed.form) no_signals)) index.signed (sized index.typed.form)) }
    ensures part { IfOk result (λ x. target_of x.target ≡ part_at (meaning_of entry) 0 width down index.constant (read_as index.signed index.typed.width (value_of (sized index.typed.form) no_signals)) index.signed (sized index.typed.form)) }
    ensures fault { IfErr result (IsFirst (run_faults (meaning_of entry) index.constant (read_as index.signed index.typed.width (value_of (sized index.typed.form) no_signals)) width down name)) }
{
    match entry {
        Entry::Signal(x) => {
            let below = x.lsb + u32::from(down);
            if !index.constant {
                let reach = Reach {
                    shift: 0,
                    signal: x.signal,
                    total: x.width,
                    width,
                    below,
                    signed: index.signed,
                };
                let index = index.typed.into_inner();
                let target = Target::Moving { reach, index };
                return Ok(TargetPart { target, width });
            }
            let at = whole_number(index.typed.get().form.value(&[]), index.signed);
            match low_bit(at, below, width, x.width) {
                Some(low) => Ok(bits_of(x.signal, low, width)),
                None => Err(refused_at(alloc, 32, name)),
            }
        }
        Entry::Constant(_) | Entry::Turn(_) | Entry::Genvar | Entry::Unknown => Err(refused_at(
            alloc, 32, name,
        )),
    }
}

/// The bits of a name from `low` up to `high`: 31 above 128 of them, else 32 where it is reversed or not within the declared range.
pub fn range(
    alloc: Global,
    entry: Entry,
    name: Identifier,
    high: Whole,
    low: Whole,
) -> Result<TargetPart, Refusal>
    ensures faultless { IfOk result (λ _. part_faults (meaning_of entry) (whole_of low) (bits_between (whole_of high) (whole_of low)) name ≡ []) }
    ensures signal { IfOk result (λ _. is_signal (meaning_of entry) ≡ true) }
    ensures width { IfOk result (λ x. x.width ≡ bits_between (whole_of high) (whole_of low)) }
    ensures read { IfOk result (λ x. read_part (target_of x.target) ≡ bits_from (meaning_of entry) (whole_of low) (bits_between (whole_of high) (whole_of low))) }
    ensures part { IfOk result (λ x. target_of x.target ≡ part_from (meaning_of entry) 0 (whole_of low) (bits_between (whole_of high) (whole_of low))) }
    ensures fault { IfErr result (IsFirst (part_faults (meaning_of entry) (whole_of low) (bits_between (whole_of high) (whole_of low)) name)) }
{
    let width = bits_between(high, low);
    if width > 128 {
        return Err(refused_at(alloc, 31, name));
    }
    if width == 0 {
        return Err(refused_at(alloc, 32, name));
    }
    match entry {
        Entry::Signal(x) => match low_bit(low, x.lsb, width, x.width) {
            Some(low) => Ok(bits_of(x.signal, low, width)),
            None => Err(refused_at(alloc, 32, name)),
        },
        Entry::Constant(_) | Entry::Turn(_) | Entry::Genvar | Entry::Unknown => Err(refused_at(
            alloc, 32, name,
        )),
    }
}

/// A width behind `+:` or `-:`, 1 to 128: else 26 at the width or 31 at the name.
pub fn width_of(alloc: Global, name: Identifier, b: &Expr, x: Const) -> Result<u8, Refusal>
    ensures faultless { IfOk result (λ n. width_faults name (expression_of b.now) (count_of (read_as x.signed x.bits.width x.bits.value)) ≡ []) }
    ensures some { IfOk result (λ n. 1 ≤ n) }
    ensures few { IfOk result (λ n. n ≤ 128) }
    ensures value { IfOk result (λ n. n ≡ count_of (read_as x.signed x.bits.width x.bits.value)) }
    ensures fault { IfErr result (IsFirst (width_faults name (expression_of b.now) (count_of (read_as x.signed x.bits.width x.bits.value)))) }
{
    let n = count_of(whole_number(x.bits, x.signed));
    if n == 0 {
        return Err(refused_of(alloc, 26, b));
    }
    if n > 128 {
        return Err(refused_at(alloc, 31, name));
    }
    Ok(n)
}
