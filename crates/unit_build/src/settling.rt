// The variables that combinational blocks of a module write, by the names of their targets.
ghost use Rattle.std.specs.Prelude.{◌≡◌, [], map, IfOk, OnOk};
ghost use Rattle.verilog_ast.specs.Views.{plain_item_of, statement_of, declaration_of};
ghost use Rattle.width_rules.specs.Entries.{scope_of};
ghost use Rattle.width_rules.specs.Found.{meaning_of};
ghost use Rattle.gen_unroll.specs.Reaches.{IsEven};
ghost use Rattle.gen_unroll.specs.Views.{step_of};
ghost use Rattle.width_rules.specs.Mentions.{statement_targets};
ghost use Rattle.gen_unroll.specs.ModuleViews.{signals_in, table_in};
ghost use Rattle.gen_unroll.specs.SignalViews.{signal_of};
ghost use Rattle.gen_unroll.specs.UnitReaches.{is_settled, writer_of};
ghost use Rattle.gen_unroll.specs.UnitReachViews.{unit_reach_of};
ghost use Rattle.unit_build.specs.Building.{settled_signals};
ghost use Rattle.unit_build.specs.Settled as s;

use gen_unroll::{ModuleSignals, NamedSignal, Step, UnitReach};
use ls_text::NoMemory;
use std::alloc::Global;
use typed_ir::{Mention, SignalId};
use verilog_ast::{ModuleBody, PlainItem, Stmt};
use width_rules::{Entry, Scope, block_mentions};

// Sets the flag of a signal, where there is one.
#[tactic(auto, using(crate::proofs::Marking::flag_set, crate::proofs::Marking::flag_beyond))]
fn flag(flags: &mut Vec<bool>, signal: SignalId)
    ensures { flags.new.items ≡ s.flagged signal flags.old.items }
{
    let place = signal.index();
    if place < flags.len() {
        flags[place] = true;
    }
}

// Sets that of what a name stands for.
fn flag_entry(flags: &mut Vec<bool>, entry: Entry)
    ensures { flags.new.items ≡ s.flag_meaning (meaning_of entry) flags.old.items }
{
    match entry {
        Entry::Signal(found) => flag(flags, found.signal),
        Entry::Constant(_) | Entry::Turn(_) | Entry::Genvar | Entry::Unknown => {}
    }
}

fn flag_names(scope: &Scope, mentions: &[Mention], flags: &mut Vec<bool>)
    ensures { flags.new.items ≡ s.flag_names (scope_of scope.now) mentions.now flags.old.items }
{
    for mention in mentions {
        flag_entry(flags, scope.find(mention.name));
    }
}

// Sets those of what a combinational block writes.
fn flag_block(
    alloc: Global,
    scope: &Scope,
    body: &Stmt,
    flags: &mut Vec<bool>,
) -> Result<(), NoMemory>
    ensures { OnOk result (flags.new.items ≡ s.flag_names (scope_of scope.now) (statement_targets 0 (statement_of body.now)) flags.old.items) }
{
    let mentions = block_mentions(alloc, scope, body)?;
    flag_names(scope, &mentions.targets, flags);
    Ok(())
}

fn flag_item(
    alloc: Global,
    scope: &Scope,
    item: &PlainItem,
    flags: &mut Vec<bool>,
) -> Result<(), NoMemory>
    ensures { OnOk result (flags.new.items ≡ s.flag_item (scope_of scope.now) (plain_item_of item.now) flags.old.items) }
{
    match item {
        PlainItem::Combinational(_, body) => flag_block(alloc, scope, body.get(), flags),
        PlainItem::Wire(_, _, _)
        | PlainItem::Reg(_, _, _)
        | PlainItem::LocalParameter(_, _, _)
        | PlainItem::Genvar(_, _)
        | PlainItem::Assign(_, _)
        | PlainItem::Clocked(_, _, _)
        | PlainItem::Instances(_, _, _) => Ok(()),
    }
}

fn flag_step(
    alloc: Global,
    scope: &Scope,
    step: &Step<'_>,
    flags: &mut Vec<bool>,
) -> Result<(), NoMemory>
    ensures { OnOk result (flags.new.items ≡ s.flag_step (scope_of scope.now) (step_of step.now) flags.old.items) }
{
    match step {
        Step::Item(item) => flag_item(alloc, scope, item, flags),
        Step::Listed(_)
        | Step::Port(_)
        | Step::Parameter(_, _, _)
        | Step::Inputs(_, _, _, _)
        | Step::Outputs(_, _, _, _)
        | Step::Label(_)
        | Step::Open(_, _)
        | Step::Close => Ok(()),
    }
}

// Sets those of all steps, each with the names in reach before it.
fn flag_steps(
    alloc: Global,
    signals: &ModuleSignals,
    here: &mut UnitReach,
    steps: &[Step<'_>],
    flags: &mut Vec<bool>,
) -> Result<(), NoMemory>
    requires { IsEven (unit_reach_of here.old) }
    ensures { OnOk result (flags.new.items
        ≡ s.flag_steps (writer_of (is_settled []) (signals_in signals.now)) (signals_in signals.now) (unit_reach_of here.old) (map step_of steps.now) flags.old.items) }
{
    for step in steps {
        flag_step(alloc, &here.reach.scope, step, flags)?;
        here.follow(signals, &[], step)?;
    }
    Ok(())
}

// No flag is set.
fn none_of(alloc: Global, signals: &[NamedSignal]) -> Result<Vec<bool>, NoMemory>
    ensures { IfOk result (λ flags. flags.items ≡ s.none_of (map signal_of signals.now)) }
{
    let mut flags = Vec::with_capacity(alloc, signals.len())?;
    for _ in signals {
        flags.push(false)?;
    }
    Ok(flags)
}

/// Of each signal of a module with these steps, whether a combinational block writes it, by the names of its targets; or want of memory.
pub fn settled(
    alloc: Global,
    of: &ModuleBody,
    signals: &ModuleSignals,
    steps: &[Step<'_>],
) -> Result<Vec<bool>, NoMemory>
    ensures { IfOk result (λ flags. flags.items ≡ settled_signals (declaration_of of.now) (table_in signals.now) (map step_of steps.now)) }
{
    let mut flags = none_of(alloc, &signals.signals)?;
    let mut here = UnitReach::new(alloc, of, signals, &[])?;
    flag_steps(alloc, signals, &mut here, steps, &mut flags)?;
    Ok(flags)
}
