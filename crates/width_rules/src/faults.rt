// Faults of expressions, with their places and names.
ghost use Rattle.std.specs.Prelude.{◌≡◌, [], ◌∷◌, option_to_list};
ghost use Rattle.verilog_ast.specs.Views.{expression_of, reference_of};
ghost use Rattle.width_rules.specs.Faults.{IsFirst, fault, fault_of, fault_at, first_name};

use ls_text::{At, Fault, NameId, NameList, Place, Refusal};
use std::alloc::Global;
use verilog_ast::{Expr, Identifier, Reference};

/// A fault at a place, which shows a name or none; or memory ran out.
pub fn refused(alloc: Global, code: u8, at: Place, name: Option<NameId>) -> Refusal
    ensures { IsFirst (fault code at (option_to_list name) ∷ []) result }
{
    let mut ids = Vec::new(alloc);
    if let Some(name) = name {
        match ids.push(name) {
            Ok(()) => {}
            Err(_) => return Refusal::NoMemory,
        }
    }
    Refusal::Fault(Fault {
        code,
        at: At::Text(at),
        names: NameList::new(ids),
    })
}

/// A fault at a name.
pub fn refused_at(alloc: Global, code: u8, name: Identifier) -> Refusal
    ensures { IsFirst (fault_at code name ∷ []) result }
{
    refused(alloc, code, name.at, Some(name.name))
}

/// The name that an expression begins with.
pub fn first_name(e: &Expr) -> Option<NameId>
    ensures { option_to_list result ≡ first_name (expression_of e.now) }
{
    match e {
        Expr::Number(_, _)
        | Expr::Unary(_, _, _)
        | Expr::Concatenation(_, _)
        | Expr::Replication(_, _, _)
        | Expr::Bracketed(_, _) => None,
        Expr::Read(reference) => Some(name_of(reference).name),
        Expr::Binary(_, left, _) => first_name(left.get()),
        Expr::Conditional(condition, _, _) => first_name(condition.get()),
    }
}

/// The name that is read.
pub fn name_of(reference: &Reference) -> Identifier
    ensures { result.name ∷ [] ≡ first_name (reference_of reference.now) }
{
    match reference {
        Reference::Whole(name)
        | Reference::Bit(name, _)
        | Reference::Part(name, _, _)
        | Reference::Upward(name, _, _)
        | Reference::Downward(name, _, _) => *name,
    }
}

/// A fault at the first token of an expression.
pub fn refused_of(alloc: Global, code: u8, e: &Expr) -> Refusal
    ensures { IsFirst (fault_of code (expression_of e.now) ∷ []) result }
{
    refused(alloc, code, e.place(), first_name(e))
}
