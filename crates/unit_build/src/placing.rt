// The items of a module with what else its unit is made of.
ghost use Rattle.std.specs.Prelude.{◌≡◌, ◌%◌, ◌^◌, map, IfOk};
ghost use Rattle.driver_rules.specs.Targets.{is_settled as is_settled_by};
ghost use Rattle.typed_ir.specs.Items.{item_of, items_of};
ghost use Rattle.typed_ir.specs.Units.{signal_within};
ghost use Rattle.statement_rules.specs.Views.{initial_of};
ghost use Rattle.gen_unroll.specs.ModuleViews.{signals_in, table_in};
ghost use Rattle.gen_unroll.specs.UnitLists as u;
ghost use Rattle.unit_build.specs.Building as b;

use crate::copying::copied_shapes;
use crate::unit_lists::UnitLists;
use bits::Bits;
use driver_rules::settled_signals;
use gen_unroll::{ModuleSignals, data_inputs, declarations, registers, unit_signals};
use ls_text::NoMemory;
use module_registry::BuildJob;
use statement_rules::{InitialValue, ItemList};
use std::alloc::Global;
use typed_ir::{SignalId, TypedItem, TypedItems, UnitSignal};

// A signal that begins with a value, cut to its width.
fn beginning(signal: UnitSignal, value: u128) -> UnitSignal
    ensures { signal_within result ≡ record (signal_within signal) { initial = value % 2 ^ signal.width } }
{
    UnitSignal {
        in_module: signal.in_module,
        name: signal.name,
        lsb: signal.lsb,
        signed: signal.signed,
        width: signal.width,
        initial: Bits::new(signal.width, value).value(),
    }
}

// The signal of its number begins with a value, where there is one.
#[tactic(auto, using(crate::proofs::Marking::begin_set))]
fn begin_with(signals: &mut Vec<UnitSignal>, initial: InitialValue)
    ensures { map signal_within signals.new.items ≡ b.begins_with initial.signal initial.value (map signal_within signals.old.items) }
{
    let place = initial.signal.index();
    if place < signals.len() {
        signals[place] = beginning(signals[place], initial.value);
    }
}

fn begin_all(signals: &mut Vec<UnitSignal>, initials: &[InitialValue])
    ensures { map signal_within signals.new.items ≡ b.with_initials (map initial_of initials.now) (map signal_within signals.old.items) }
{
    for given in initials {
        begin_with(signals, *given);
    }
}

// The signals of the unit of a job, with what they have at the beginning.
fn signals_of(
    alloc: Global,
    job: &BuildJob,
    signals: &ModuleSignals,
    initials: &[InitialValue],
) -> Result<Vec<UnitSignal>, NoMemory>
    ensures { IfOk result (λ xs. map signal_within xs.items
        ≡ b.with_initials (map initial_of initials.now) (u.unit_signals (b.module_of job.now).name.name.0 job.now.names (signals_in signals.now))) }
{
    let module = &job.module;
    let mut all = unit_signals(alloc, module.body.name.name, job.names.ids(), signals)?;
    begin_all(&mut all, initials);
    Ok(all)
}

// The variables that no combinational block among the items writes.
fn registers_of(
    alloc: Global,
    signals: &ModuleSignals,
    items: &[TypedItem],
) -> Result<Vec<SignalId>, NoMemory>
    ensures { IfOk result (λ ks. ks.items ≡ u.registers (is_settled_by (map item_of items.now)) (table_in signals.now)) }
{
    let settled = settled_signals(alloc, items, signals.signals.len())?;
    registers(alloc, &settled, signals)
}

// What the unit of a job has beside these items.
fn lists_of(
    alloc: Global,
    job: &BuildJob,
    signals: &ModuleSignals,
    list: &ItemList,
) -> Result<UnitLists, NoMemory>
    ensures signals { IfOk result (λ l. map signal_within l.signals.items
        ≡ b.with_initials (map initial_of list.now.initials.items) (u.unit_signals (b.module_of job.now).name.name.0 job.now.names (signals_in signals.now))) }
    ensures declarations { IfOk result (λ l. l.declarations.items ≡ u.declarations_of (signals_in signals.now)) }
    ensures registers { IfOk result (λ l. l.registers.items ≡ u.registers (is_settled_by (map item_of list.now.items.items)) (table_in signals.now)) }
    ensures inputs { IfOk result (λ l. l.inputs.items ≡ u.data_inputs job.now.clock (signals_in signals.now)) }
    ensures shapes { IfOk result (λ l. l.shapes ≡ job.now.children) }
{
    Ok(UnitLists {
        signals: signals_of(alloc, job, signals, &list.initials)?,
        declarations: declarations(alloc, signals)?,
        registers: registers_of(alloc, signals, &list.items)?,
        inputs: data_inputs(alloc, job.clock, signals)?,
        shapes: copied_shapes(alloc, job.children.as_slice())?,
    })
}

/// The items of the module of a job, with its signals, which begin with these values, its registers, its data inputs and its instances;
/// or want of memory.
pub fn place_items(
    alloc: Global,
    job: &BuildJob,
    signals: &ModuleSignals,
    list: ItemList,
) -> Result<TypedItems, NoMemory>
    ensures items { IfOk result (λ p. items_of p ≡ b.placed job.now (table_in signals.now) (map item_of list.items.items) (map initial_of list.initials.items)) }
    ensures shapes { IfOk result (λ p. p.shapes ≡ job.now.children) }
{
    let lists = lists_of(alloc, job, signals, &list)?;
    Ok(TypedItems {
        signals: lists.signals,
        declarations: lists.declarations,
        registers: lists.registers,
        inputs: lists.inputs,
        items: list.items,
        shapes: lists.shapes,
    })
}
