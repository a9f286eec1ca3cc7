// The operations of a block, between the registers of a design and those of the next one.
ghost use Rattle.std.specs.Prelude.{◌≡◌, ◌<◌, [], Some, length, option_copied, IfOk, IfErr};
ghost use Rattle.std.specs.List.{All};
ghost use Rattle.ls_text.specs.Readings.{CanShow, fault_view};
ghost use Rattle.ls_text.specs.Texts.{Grows, text_at};
ghost use Rattle.command_read.specs.Spoken.{AreOpsWithin};
ghost use Rattle.reg_transform.specs.OperationFaults.{AreValid, operations_fault};
ghost use Rattle.reg_transform.specs.Refusals.{Refuses, refused_of};
ghost use Rattle.cycle_eval.specs.Designs.{design_flat};
ghost use Rattle.cycle_eval.specs.Kits.{regs_of};
ghost use Rattle.version_swap.specs.Operations.{
  AreValidBetween,
  IsOperationRefusal,
  first_refused,
  operation_fault,
  ops_of,
  qualified_text,
  registers_of,
};

use command_read::OpLine;
use cycle_eval::Design;
use ls_text::{At, Fault, NameId, NameList, Names, NoMemory, Refusal};
use reg_ops::RegOp;
use reg_transform::{OpFault, OpRefusal, Regs, check};
use std::alloc::Global;
use typed_ir::InstanceTable;

/// Operations without their lines.
pub fn operations_of(alloc: Global, lines: &[OpLine]) -> Result<Vec<RegOp>, NoMemory>
    ensures { IfOk result (λ ops. ops.items ≡ ops_of lines.now) }
{
    let mut ops = Vec::with_capacity(alloc, lines.len())?;
    for line in lines {
        ops.push(line.op)?;
    }
    Ok(ops)
}

// Whether operations hold between a design, where there is one, and the next one.
fn checked_ops(
    alloc: Global,
    old: Option<&Design>,
    new: &Design,
    ops: &[RegOp],
) -> Result<(), OpRefusal>
    ensures valid { IfOk result (λ _. AreValid (registers_of (option_copied old.entry)) (regs_of (design_flat new.now)) ops.now) }
    ensures refused { IfErr result (λ refusal. Refuses refusal
        (operations_fault (registers_of (option_copied old.entry)) (regs_of (design_flat new.now)) [] ops.now)) }
{
    match old {
        Some(old) => check(alloc, &old.regs(), &new.regs(), ops),
        None => {
            let instances = InstanceTable {
                rows: Vec::new(alloc),
            };
            let none = Regs {
                instances: &instances,
                signals: &[],
                registers: &[],
            };
            check(alloc, &none, &new.regs(), ops)
        }
    }
}

// The name of a register as it is shown: `module.register`.
fn qualified_name(
    alloc: Global,
    names: &mut Names,
    in_module: NameId,
    register: NameId,
) -> Result<NameId, NoMemory>
    requires in_module { in_module.0 < length names.old }
    requires register { register.0 < length names.old }
    ensures text { IfOk result (λ id. text_at names.new id.0 ≡ qualified_text names.old (record { in_module = in_module.0; name = register.0 })) }
    ensures within { IfOk result (λ id. id.0 < length names.new) }
    ensures grows { Grows names.old names.new }
{
    let mut text = Vec::from_slice(alloc, names.text(in_module))?;
    text.push(b'.')?;
    text.extend_from_slice(names.text(register))?;
    names.intern(&text)
}

// The fault of an operation, at its line.
fn fault_of(
    alloc: Global,
    names: &mut Names,
    lines: &[OpLine],
    broken: OpFault,
) -> Result<Fault, NoMemory>
    requires index { broken.index < length lines.now }
    requires in_module { broken.in_module.0 < length names.old }
    requires register { broken.register.0 < length names.old }
    ensures view { IfOk result (λ f. fault_view names.new f ≡ operation_fault names.old lines.now (refused_of broken)) }
    ensures known { IfOk result (λ f. All (λ id. id.0 < length names.new) f.names) }
    ensures grows { Grows names.old names.new }
{
    let shown = qualified_name(alloc, names, broken.in_module, broken.register)?;
    Ok(Fault {
        code: broken.code,
        at: At::Line(lines[broken.index].line),
        names: NameList::new(vec![in alloc; shown]?),
    })
}

/// Whether the operations of a block hold between a design, where there is one, and the next one, else the first that breaks a condition:
/// 50 to 55 at its line, with its register.
pub fn checked(
    alloc: Global,
    names: &mut Names,
    old: Option<&Design>,
    new: &Design,
    lines: &[OpLine],
) -> Result<(), Refusal>
    requires named { AreOpsWithin (length names.old) lines.now }
    ensures valid { IfOk result (λ _. AreValidBetween (option_copied old.entry) new.now lines.now) }
    ensures refused { IfErr result (IsOperationRefusal names.new (option_copied old.entry) new.now lines.now) }
    ensures known { IfErr result (CanShow (length names.new)) }
    ensures grows { Grows names.old names.new }
{
    let ops = operations_of(alloc, lines)?;
    match checked_ops(alloc, old, new, &ops) {
        Ok(()) => Ok(()),
        Err(OpRefusal::NoMemory) => Err(Refusal::NoMemory),
        Err(OpRefusal::Breaks(broken)) => Err(Refusal::Fault(fault_of(
            alloc, names, lines, broken,
        )?)),
    }
}
