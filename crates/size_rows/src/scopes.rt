// What expressions are within a block of a scope and behind it, as texts.
ghost use Rattle.std.specs.Prelude.{◌≡◌, ◌∷◌, IfOk};
ghost use Rattle.width_rules.specs.Entries.{scope_of, around};

use crate::prepared::Prepared;
use bits::Bits;
use ls_text::{Names, NoMemory};
use row_operands::{push_refusal, push_value};
use std::alloc::Global;
use typed_ir::{Const, fits, value};
use width_rules::{Entry, Scope, size_expr};

// The value of an expression at its own length and sign, or its first fault; behind what is there.
fn push_sized(alloc: Global, out: &mut Vec<u8>, p: &mut Prepared) -> Result<(), NoMemory>
    ensures { IfOk result (λ _. around p.new.scope ≡ around p.old.scope) }
{
    match size_expr(alloc, &p.scope, &p.expression, None, false) {
        Ok(typed) => {
            if fits(&typed, &p.env) {
                push_value(out, value(&typed, &p.env))?;
            }
            Ok(())
        }
        Err(refusal) => push_refusal(alloc, out, &mut p.names, refusal),
    }
}

// Declares a name as a constant of 8 bits.
fn declare_constant(
    names: &mut Names,
    scope: &mut Scope,
    name: &[u8],
    number: u128,
) -> Result<(), NoMemory>
    ensures { IfOk result (λ _. around scope.new ≡ around scope.old) }
{
    let id = names.intern(name)?;
    let bits = Bits::new(8, number);
    scope.declare(
        id,
        Entry::Constant(Const {
            bits,
            signed: false,
        }),
    )
}

// Begins a block that declares `a` as 7 and `zz` as 1, each of 8 bits.
fn open_with_names(names: &mut Names, scope: &mut Scope) -> Result<(), NoMemory>
    ensures { IfOk result (λ _. around scope.new ≡ scope_of scope.old ∷ around scope.old) }
{
    scope.open_block()?;
    declare_constant(names, scope, b"a", 7)?;
    declare_constant(names, scope, b"zz", 1)
}

// What an expression is within a block, which ends then.
fn push_within(alloc: Global, out: &mut Vec<u8>, p: &mut Prepared) -> Result<(), NoMemory> {
    open_with_names(&mut p.names, &mut p.scope)?;
    push_sized(alloc, out, p)?;
    p.scope.close_block();
    Ok(out.push(b' ')?)
}

// What an expression is within a block, and then behind it.
fn push_both(alloc: Global, out: &mut Vec<u8>, p: &mut Prepared) -> Result<(), NoMemory> {
    push_within(alloc, out, p)?;
    push_sized(alloc, out, p)
}

/// The value of an expression within a block that declares `a` as 7 and `zz` as 1, each of 8 bits, and then behind the block.
pub fn within_and_behind(alloc: Global, text: &[u8]) -> Result<Vec<u8>, NoMemory> {
    let mut out = Vec::new(alloc);
    if let Some(mut p) = Prepared::of(alloc, text)? {
        push_both(alloc, &mut out, &mut p)?;
    }
    Ok(out)
}
