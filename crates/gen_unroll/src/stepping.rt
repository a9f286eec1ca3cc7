// The steps of a module to what they declare, in the order of the text.
ghost use Rattle.std.specs.Prelude.{◌≡◌, [], map, IfOk, OnOk};
ghost use Rattle.std.specs.Option.{option_map};
ghost use Rattle.verilog_ast.specs.Declarations.{header_net};
ghost use Rattle.verilog_ast.specs.Views.{range_of, kind_of, declared_of, declared_reg_of, port_of, plain_item_of, declaration_of};
ghost use Rattle.width_rules.specs.Entries.{scope_of};
ghost use Rattle.gen_unroll.specs.Declarations as d;
ghost use Rattle.gen_unroll.specs.Reaches.{reach_in, IsEven};
ghost use Rattle.gen_unroll.specs.ReachViews.{reach_of};
ghost use Rattle.ls_text.specs.Answers.{Answers, Leads};
ghost use Rattle.gen_unroll.specs.Views.{bit_range_of, step_of};
ghost use Rattle.gen_unroll.specs.Signals as s;
ghost use Rattle.gen_unroll.specs.TableViews.{signals_of, IsPlaced};

use crate::bit_range::BitRange;
use crate::declaring::{declare_next, declare_port, kind_of_net, no_signals};
use crate::name_ranges::{declare_inputs, declare_outputs, declare_regs, declare_wires};
use crate::ranges::range_value;
use crate::reach::Reach;
use crate::step::Step;
use crate::table::Table;
use ls_text::Refusal;
use std::alloc::Global;
use typed_ir::SignalKind;
use verilog_ast::{
    HeaderPort, Identifier, ModuleBody, PlainItem, PortNet, Range, RegVariable, Shape, Variable,
};
use width_rules::Scope;

fn range_of(alloc: Global, scope: &Scope, range: &Range) -> Result<Option<BitRange>, Refusal>
    ensures { Answers result (option_map bit_range_of) (d.range_of (scope_of scope.now) (range_of range.now)) }
{
    let range = range_value(alloc, scope, range)?;
    Ok(Some(range))
}

fn range_or_none(
    alloc: Global,
    scope: &Scope,
    range: &Option<Range>,
) -> Result<Option<BitRange>, Refusal>
    ensures { Answers result (option_map bit_range_of) (d.range_or_none (scope_of scope.now) (option_map range_of range.now)) }
{
    match range {
        None => Ok(None),
        Some(range) => range_of(alloc, scope, range),
    }
}

// The range of a declaration, where it has one, or its first fault.
fn range_in(alloc: Global, scope: &Scope, shape: &Shape) -> Result<Option<BitRange>, Refusal>
    ensures { Answers result (option_map bit_range_of) (d.range_or_none (scope_of scope.now) (kind_of shape.now).range) }
{
    range_or_none(alloc, scope, &shape.range)
}

// A port that the header declares is complete.
fn header_net(net: PortNet) -> PortNet
    ensures { result ≡ header_net net }
{
    match net {
        PortNet::Nothing | PortNet::Wire => PortNet::Wire,
        PortNet::Reg => PortNet::Reg,
    }
}

// A port that the header declares with a sign and a range of its own.
fn complete_port(
    alloc: Global,
    table: &mut Table,
    here: &Reach,
    kind: SignalKind,
    net: PortNet,
    shape: &Shape,
    name: Identifier,
) -> Result<(), Refusal>
    requires { IsPlaced table.old }
    ensures signals { Leads result (signals_of table.new) (s.complete_port (reach_of here.now) kind net (kind_of shape.now) name (signals_of table.old)) }
    ensures placed { OnOk result (IsPlaced table.new) }
{
    let range = range_in(alloc, &here.scope, shape)?;
    let block = here.block();
    declare_port(
        table,
        block,
        kind,
        header_net(net),
        range,
        shape.signed,
        name,
    )?;
    Ok(())
}

// A port that the header declares.
fn header_port(
    alloc: Global,
    table: &mut Table,
    here: &Reach,
    port: &HeaderPort,
) -> Result<(), Refusal>
    requires { IsPlaced table.old }
    ensures signals { Leads result (signals_of table.new) (s.header_port (reach_of here.now) (port_of port.now) (signals_of table.old)) }
    ensures placed { OnOk result (IsPlaced table.new) }
{
    match port {
        HeaderPort::Input(_, net, shape, name) => {
            complete_port(alloc, table, here, SignalKind::Input, *net, shape, *name)
        }
        HeaderPort::Output(_, net, shape, variable) => {
            let kind = kind_of_net(*net);
            complete_port(alloc, table, here, kind, *net, shape, variable.name)
        }
        HeaderPort::Next(variable) => {
            declare_next(table, here.block(), variable.name)?;
            Ok(())
        }
    }
}

fn inputs(
    alloc: Global,
    table: &mut Table,
    here: &Reach,
    net: PortNet,
    shape: &Shape,
    names: &[Identifier],
) -> Result<(), Refusal>
    requires { IsPlaced table.old }
    ensures signals { Leads result (signals_of table.new) (s.inputs (reach_of here.now) net (kind_of shape.now) names.now (signals_of table.old)) }
    ensures placed { OnOk result (IsPlaced table.new) }
{
    let range = range_in(alloc, &here.scope, shape)?;
    declare_inputs(table, here.block(), net, range, shape.signed, names)?;
    Ok(())
}

fn outputs(
    alloc: Global,
    table: &mut Table,
    here: &Reach,
    net: PortNet,
    shape: &Shape,
    ports: &[Variable],
) -> Result<(), Refusal>
    requires { IsPlaced table.old }
    ensures signals { Leads result (signals_of table.new) (s.outputs (reach_of here.now) net (kind_of shape.now) (map declared_of ports.now) (signals_of table.old)) }
    ensures placed { OnOk result (IsPlaced table.new) }
{
    let range = range_in(alloc, &here.scope, shape)?;
    declare_outputs(table, here.block(), net, range, shape.signed, ports)?;
    Ok(())
}

fn wires(
    alloc: Global,
    table: &mut Table,
    here: &Reach,
    shape: &Shape,
    nets: &[Variable],
) -> Result<(), Refusal>
    requires { IsPlaced table.old }
    ensures signals { Leads result (signals_of table.new) (s.wires (reach_of here.now) (kind_of shape.now) (map declared_of nets.now) (signals_of table.old)) }
    ensures placed { OnOk result (IsPlaced table.new) }
{
    let range = range_in(alloc, &here.scope, shape)?;
    declare_wires(table, here.block(), range, shape.signed, nets)?;
    Ok(())
}

fn regs(
    alloc: Global,
    table: &mut Table,
    here: &Reach,
    shape: &Shape,
    regs: &[RegVariable],
) -> Result<(), Refusal>
    requires { IsPlaced table.old }
    ensures signals { Leads result (signals_of table.new) (s.regs (reach_of here.now) (kind_of shape.now) (map declared_reg_of regs.now) (signals_of table.old)) }
    ensures placed { OnOk result (IsPlaced table.new) }
{
    let range = range_in(alloc, &here.scope, shape)?;
    declare_regs(table, here.block(), range, shape.signed, regs)?;
    Ok(())
}

// What an item without a generate construct declares.
fn plain_item(
    alloc: Global,
    table: &mut Table,
    here: &Reach,
    item: &PlainItem,
) -> Result<(), Refusal>
    requires { IsPlaced table.old }
    ensures signals { Leads result (signals_of table.new) (s.item_signals (reach_of here.now) (plain_item_of item.now) (signals_of table.old)) }
    ensures placed { OnOk result (IsPlaced table.new) }
{
    match item {
        PlainItem::Wire(_, shape, nets) => wires(alloc, table, here, shape, nets.as_slice()),
        PlainItem::Reg(_, shape, all) => regs(alloc, table, here, shape, all.as_slice()),
        PlainItem::LocalParameter(_, _, _)
        | PlainItem::Genvar(_, _)
        | PlainItem::Assign(_, _)
        | PlainItem::Combinational(_, _)
        | PlainItem::Clocked(_, _, _)
        | PlainItem::Instances(_, _, _) => Ok(()),
    }
}

// What a step declares.
fn step_signals(
    alloc: Global,
    table: &mut Table,
    here: &Reach,
    step: &Step<'_>,
) -> Result<(), Refusal>
    requires { IsPlaced table.old }
    ensures signals { Leads result (signals_of table.new) (s.step_signals (reach_of here.now) (step_of step.now) (signals_of table.old)) }
    ensures placed { OnOk result (IsPlaced table.new) }
{
    match step {
        Step::Port(port) => header_port(alloc, table, here, port),
        Step::Inputs(_, net, shape, names) => inputs(alloc, table, here, *net, shape, names),
        Step::Outputs(_, net, shape, ports) => outputs(alloc, table, here, *net, shape, ports),
        Step::Item(item) => plain_item(alloc, table, here, item),
        Step::Listed(_)
        | Step::Parameter(_, _, _)
        | Step::Label(_)
        | Step::Open(_, _)
        | Step::Close => Ok(()),
    }
}

// What steps declare one after another, each with the names that are in reach before it.
fn declare_steps(
    alloc: Global,
    table: &mut Table,
    here: &mut Reach,
    steps: &[Step<'_>],
) -> Result<(), Refusal>
    requires placed { IsPlaced table.old }
    requires even { IsEven (reach_of here.old) }
    ensures signals { Leads result (signals_of table.new) (s.declared_in (reach_of here.old) (map step_of steps.now) (signals_of table.old)) }
    ensures placed { OnOk result (IsPlaced table.new) }
{
    for step in steps {
        step_signals(alloc, table, here, step)?;
        here.follow(step)?;
    }
    Ok(())
}

/// What the steps of a module declare, in the order of the text, or the first fault of a range.
pub fn declared_in(alloc: Global, of: &ModuleBody, steps: &[Step<'_>]) -> Result<Table, Refusal>
    ensures signals { Answers result signals_of (s.declared_in (reach_in (declaration_of of.now)) (map step_of steps.now) []) }
    ensures placed { IfOk result (λ t. IsPlaced t) }
{
    let mut table = no_signals(alloc);
    let mut here = Reach::new(alloc, of)?;
    declare_steps(alloc, &mut table, &mut here, steps)?;
    Ok(table)
}
