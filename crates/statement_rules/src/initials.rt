// What variables have at the beginning, by their declarations (IEEE Std 1364-2005, 6.2.1).
ghost use Rattle.std.specs.Prelude.{◌≡◌, ◌≤◌, ◌++◌, ◌%◌, ◌^◌, [], IfOk, IfErr};
ghost use Rattle.typed_ir.specs.Sized.{value_of};
ghost use Rattle.verilog_ast.specs.Views.{expression_of};
ghost use Rattle.width_rules.specs.declared.due.Due.TheVariants.{ConstantOnly};
ghost use Rattle.width_rules.specs.Entries.{scope_of};
ghost use Rattle.width_rules.specs.Faults.{IsFirst, faults};
ghost use Rattle.width_rules.specs.References.{target_name_faults};
ghost use Rattle.width_rules.specs.Sizes.{name_length, no_signals};
ghost use Rattle.statement_rules.specs.Statements.{assigned};
ghost use Rattle.statement_rules.specs.Targets.{target_faults};
ghost use Rattle.statement_rules.specs.DeclaredValues.{signal_in, name_of, initial_value};
ghost use Rattle.statement_rules.specs.Views.{declared_value_of, initial_of};

use crate::declared_bits::DeclaredBits;
use crate::declared_value::DeclaredValue;
use crate::initial_value::InitialValue;
use bits::Bits;
use ls_text::Refusal;
use std::alloc::Global;
use typed_ir::SignalId;
use verilog_ast::{Expr, Identifier};
use width_rules::{Due, Entry, Scope, close, measure, refused_at};

// The signal and the width of a name; or 29 where nothing declares it.
fn bits_of(alloc: Global, scope: &Scope, name: Identifier) -> Result<DeclaredBits, Refusal>
    ensures faultless { IfOk result (λ _. target_name_faults (scope_of scope.now name.name.0) name ≡ []) }
    ensures signal { IfOk result (λ x. x.signal ≡ signal_in (scope_of scope.now name.name.0)) }
    ensures width { IfOk result (λ x. x.width ≡ name_length (scope_of scope.now name.name.0)) }
    ensures fault { IfErr result (IsFirst (target_name_faults (scope_of scope.now name.name.0) name)) }
{
    match scope.find(name.name) {
        Entry::Signal(x) => Ok(DeclaredBits {
            signal: x.signal,
            width: x.width,
        }),
        Entry::Constant(x) => Ok(DeclaredBits {
            signal: SignalId(0),
            width: x.bits.width,
        }),
        Entry::Turn(x) => Ok(DeclaredBits {
            signal: SignalId(0),
            width: x.bits.width,
        }),
        Entry::Genvar => Ok(DeclaredBits {
            signal: SignalId(0),
            width: 1,
        }),
        Entry::Unknown => Err(refused_at(alloc, 29, name)),
    }
}

// The value of an assignment to so many bits, cut to these bits, where it is constant; or its first fault, or want of memory.
#[tactic(auto, using(width_rules::proofs::Firsts::earlier, width_rules::proofs::Firsts::later, width_rules::proofs::Firsts::neither, width_rules::proofs::Opening::pushed))]
fn constant(alloc: Global, scope: &Scope, width: u8, value: &Expr) -> Result<u128, Refusal>
    requires some { 1 ≤ width }
    requires few { width ≤ 128 }
    ensures faultless { IfOk result (λ _. faults (scope_of scope.now) ConstantOnly (expression_of value.now) ≡ []) }
    ensures value { IfOk result (λ x. x ≡ value_of (assigned (scope_of scope.now) width (expression_of value.now)) no_signals % 2 ^ width) }
    ensures fault { IfErr result (IsFirst (faults (scope_of scope.now) ConstantOnly (expression_of value.now))) }
{
    let m = measure(alloc, scope, Due::ConstantOnly, value)?;
    let length = width.max(m.length);
    let typed = close(alloc, m.form, length, m.signed)?;
    let found = typed.form.value(&[]);
    Ok(Bits::new(width, found.value).value)
}

/// What a variable has at the beginning that is declared with this value: 29 UnknownName at its name, and then the first fault of the value,
/// which has to be constant (25); or want of memory.
pub fn initial(alloc: Global, scope: &Scope, x: &DeclaredValue<'_>) -> Result<InitialValue, Refusal>
    ensures faultless { IfOk result (λ _. target_faults (scope_of scope.now) ConstantOnly (name_of (declared_value_of x.now)) ++ faults (scope_of scope.now) ConstantOnly (declared_value_of x.now).value ≡ []) }
    ensures initial { IfOk result (λ r. initial_of r ≡ initial_value (scope_of scope.now) (declared_value_of x.now)) }
    ensures fault { IfErr result (IsFirst (target_faults (scope_of scope.now) ConstantOnly (name_of (declared_value_of x.now)) ++ faults (scope_of scope.now) ConstantOnly (declared_value_of x.now).value)) }
{
    let declared = bits_of(alloc, scope, x.name)?;
    let value = constant(alloc, scope, declared.width, x.value)?;
    Ok(InitialValue {
        signal: declared.signal,
        value,
    })
}
