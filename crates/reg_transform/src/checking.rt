// Whether operations hold between the registers of two designs.
ghost use Rattle.std.specs.Prelude.{◌≡◌, ◌||◌, [], Some, IfOk, IfErr};
ghost use Rattle.std.specs.Option.{option_or};
ghost use Rattle.reg_ops.specs.declared.reg_op.RegOp.TheVariants.{Rename};
ghost use Rattle.reg_transform.specs.Found.{greatest_in, is_among};
ghost use Rattle.reg_transform.specs.Greatest.{faults, misses_by, twice_by};
ghost use Rattle.reg_transform.specs.OperationFaults.{AreValid, are_one, new_of, old_of, operations_fault};
ghost use Rattle.reg_transform.specs.Registers.{RegisterName};
ghost use Rattle.reg_transform.specs.Refusals.{Refuses};
ghost use Rattle.reg_transform.specs.Regs.{registers_in};

use crate::breach::Breach;
use crate::breaches::{broken, first_of};
use crate::greatest_values::{GreatestValues, greatest_values};
use crate::named::Named;
use crate::op_fault::OpFault;
use crate::op_refusal::OpRefusal;
use crate::qualified_name::QualifiedName;
use crate::regs::Regs;
use ls_text::{NameId, NoMemory};
use reg_ops::RegOp;
use std::alloc::Global;

// What the registers of both designs say against a rename.
fn rename_misses(
    before: &GreatestValues,
    after: &GreatestValues,
    in_module: NameId,
    from: NameId,
    to: NameId,
) -> Option<Breach>
    ensures { faults result ≡ misses_by (greatest_in before.now) (greatest_in after.now) (Rename in_module from to) }
{
    let old = QualifiedName {
        in_module,
        name: from,
    };
    let new = QualifiedName {
        in_module,
        name: to,
    };
    first_of(
        broken(!before.has(old), 50, old),
        broken(!after.has(new), 51, new),
    )
}

// What the registers of both designs say against an operation.
fn misses(before: &GreatestValues, after: &GreatestValues, op: &RegOp) -> Option<Breach>
    ensures { faults result ≡ misses_by (greatest_in before.now) (greatest_in after.now) op.now }
{
    match *op {
        RegOp::Rename {
            in_module,
            from,
            to,
        } => rename_misses(before, after, in_module, from, to),
        RegOp::Create {
            in_module,
            reg,
            value,
        } => {
            let new = QualifiedName {
                in_module,
                name: reg,
            };
            first_of(
                broken(!after.has(new), 53, new),
                broken(after.is_passed(new, value), 55, new),
            )
        }
        RegOp::Delete { in_module, reg } => {
            let old = QualifiedName {
                in_module,
                name: reg,
            };
            first_of(
                broken(!before.has(old), 50, old),
                broken(after.has(old), 54, old),
            )
        }
    }
}

// The condition that one more operation breaks.
fn breach_of(
    before: &GreatestValues,
    after: &GreatestValues,
    named: &mut Named,
    op: &RegOp,
) -> Result<Option<Breach>, NoMemory>
    ensures fault { IfOk result (λ fault. faults fault ≡ option_or (twice_by (is_among named.old.olds.keys) (is_among named.old.news.keys) op.now)
        (misses_by (greatest_in before.now) (greatest_in after.now) op.now)) }
    ensures old { IfOk result (λ _. (n : RegisterName) → is_among named.new.olds.keys n ≡ (are_one (old_of op.now) (Some n) || is_among named.old.olds.keys n)) }
    ensures new { IfOk result (λ _. (n : RegisterName) → is_among named.new.news.keys n ≡ (are_one (new_of op.now) (Some n) || is_among named.old.news.keys n)) }
{
    let twice = named.note(op)?;
    Ok(first_of(twice, misses(before, after, op)))
}

/// Whether operations hold between the registers of an old design and those of a new one. The first that breaks a condition is told: of its
/// conditions 52 comes first, then the one with the lowest code. Names are found by hash, in time in proportion to registers and
/// operations.
pub fn check(alloc: Global, old: &Regs<'_>, new: &Regs<'_>, ops: &[RegOp]) -> Result<(), OpRefusal>
    ensures valid { IfOk result (λ _. AreValid (registers_in old.now) (registers_in new.now) ops.now) }
    ensures refused { IfErr result (λ refusal. Refuses refusal (operations_fault (registers_in old.now) (registers_in new.now) [] ops.now)) }
{
    let before = greatest_values(alloc, old)?;
    let after = greatest_values(alloc, new)?;
    let mut named = Named::new(alloc);
    for index in 0..ops.len() {
        match breach_of(&before, &after, &mut named, &ops[index])? {
            Some(breach) => {
                return Err(OpRefusal::Breaks(OpFault {
                    index,
                    code: breach.code,
                    in_module: breach.shown.in_module,
                    register: breach.shown.name,
                }));
            }
            None => {}
        }
    }
    Ok(())
}
