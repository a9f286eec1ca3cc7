// Which port of an instance the clock reaches, and items that mention it elsewhere.
ghost use Rattle.std.specs.Prelude.{◌≡◌, map, None};
ghost use Rattle.std.specs.Option.{option_map};
ghost use Rattle.verilog_ast.specs.Views.{expression_of, reference_of, by_name_of, by_order_of, connections_of, instance_of, declared_of, declared_reg_of, assignment_of, port_of, plain_item_of, declaration_of};
ghost use Rattle.width_rules.specs.Entries.{scope_of};
ghost use Rattle.module_names.specs.Listings.{names_behind};
ghost use Rattle.module_names.specs.Modules.{module_named};
ghost use Rattle.module_names.specs.Views.{modules_of};
ghost use Rattle.ls_text.specs.Answers.{Answers, Leads};
ghost use Rattle.clock_rules.specs.Clocks as k;
ghost use Rattle.clock_rules.specs.Views.{clock_view, clocks_view};

use crate::clock_free::{
    clock_free, is_clock, reference_free, statement_free, target_free, value_free,
};
use ls_text::{NameId, Refusal};
use module_names::{ModuleNames, Modules};
use std::alloc::Global;
use verilog_ast::{
    Child, Connections, Continuous, Expr, HeaderPort, Identifier, Instance, NamedConnection,
    OrderedConnection, PlainItem, Reference, RegVariable, Variable,
};
use width_rules::{Scope, refused_at};

// The clock at a port of an instance: 37 where it is no input, or where the instance has its clock already.
fn take_clock(
    alloc: Global,
    of: &ModuleNames<'_>,
    port: Option<Identifier>,
    name: Identifier,
    clock: Option<NameId>,
) -> Result<Option<NameId>, Refusal>
    ensures { Answers result clock_view (k.take_clock (declaration_of of.now.body.now) port name (clock_view clock)) }
{
    let Some(port) = port else {
        return Err(refused_at(alloc, 37, name));
    };
    if clock.is_some() {
        return Err(refused_at(alloc, 37, name));
    }
    if of.inputs.has(port.name) {
        Ok(Some(port.name))
    } else {
        Err(refused_at(alloc, 37, name))
    }
}

// A name with its select or without, connected to a port.
fn connect_reference(
    alloc: Global,
    of: &ModuleNames<'_>,
    scope: &Scope,
    port: Option<Identifier>,
    reference: &Reference,
    clock: Option<NameId>,
) -> Result<Option<NameId>, Refusal>
    ensures { Answers result clock_view (k.connect (declaration_of of.now.body.now) (scope_of scope.now) port (reference_of reference.now) (clock_view clock)) }
{
    match reference {
        Reference::Whole(name) => {
            if is_clock(scope, *name) {
                take_clock(alloc, of, port, *name, clock)
            } else {
                Ok(clock)
            }
        }
        Reference::Bit(_, _)
        | Reference::Part(_, _, _)
        | Reference::Upward(_, _, _)
        | Reference::Downward(_, _, _) => {
            reference_free(alloc, scope, reference)?;
            Ok(clock)
        }
    }
}

fn connect(
    alloc: Global,
    of: &ModuleNames<'_>,
    scope: &Scope,
    port: Option<Identifier>,
    e: &Expr,
    clock: Option<NameId>,
) -> Result<Option<NameId>, Refusal>
    ensures { Answers result clock_view (k.connect (declaration_of of.now.body.now) (scope_of scope.now) port (expression_of e.now) (clock_view clock)) }
{
    match e {
        Expr::Read(reference) => connect_reference(alloc, of, scope, port, reference, clock),
        Expr::Number(_, _)
        | Expr::Unary(_, _, _)
        | Expr::Binary(_, _, _)
        | Expr::Conditional(_, _, _)
        | Expr::Concatenation(_, _)
        | Expr::Replication(_, _, _)
        | Expr::Bracketed(_, _) => {
            clock_free(alloc, scope, e)?;
            Ok(clock)
        }
    }
}

fn connection(
    alloc: Global,
    of: &ModuleNames<'_>,
    scope: &Scope,
    port: Option<Identifier>,
    value: &Option<Child<Expr>>,
    clock: Option<NameId>,
) -> Result<Option<NameId>, Refusal>
    ensures { Answers result clock_view (k.connection (declaration_of of.now.body.now) (scope_of scope.now) port (option_map expression_of value.now) (clock_view clock)) }
{
    match value {
        None => Ok(clock),
        Some(e) => connect(alloc, of, scope, port, e.get(), clock),
    }
}

fn clock_by_name(
    alloc: Global,
    of: &ModuleNames<'_>,
    scope: &Scope,
    all: &[NamedConnection],
) -> Result<Option<NameId>, Refusal>
    ensures { Answers result clock_view (k.clock_by_name (declaration_of of.now.body.now) (scope_of scope.now) (map by_name_of all.now) None) }
{
    let mut clock = None;
    for one in all {
        clock = connection(alloc, of, scope, Some(one.name), &one.value, clock)?;
    }
    Ok(clock)
}

fn next_port(ports: &[Identifier]) -> Option<Identifier>
    ensures { result ≡ k.next_port ports.now }
{
    match ports.split_first() {
        Some((first, _)) => Some(*first),
        None => None,
    }
}

fn ports_behind(ports: &[Identifier]) -> &[Identifier]
    ensures { result.now ≡ names_behind ports.now }
{
    match ports.split_first() {
        Some((_, rest)) => rest,
        None => ports,
    }
}

fn clock_by_order(
    alloc: Global,
    of: &ModuleNames<'_>,
    scope: &Scope,
    ports: &[Identifier],
    all: &[OrderedConnection],
) -> Result<Option<NameId>, Refusal>
    ensures { Answers result clock_view (k.clock_by_order (declaration_of of.now.body.now) (scope_of scope.now) ports.now (map by_order_of all.now) None) }
{
    let mut clock = None;
    let mut left = ports;
    for one in all {
        let port = next_port(left);
        clock = connection(alloc, of, scope, port, &one.value, clock)?;
        left = ports_behind(left);
    }
    Ok(clock)
}

// The clock port of an instance.
fn clock_of(
    alloc: Global,
    of: &ModuleNames<'_>,
    scope: &Scope,
    connections: &Connections,
) -> Result<Option<NameId>, Refusal>
    ensures { Answers result clock_view (k.clock_of (declaration_of of.now.body.now) (scope_of scope.now) (connections_of connections.now)) }
{
    match connections {
        Connections::Named(all) => clock_by_name(alloc, of, scope, all.as_slice()),
        Connections::Ordered(all) => {
            clock_by_order(alloc, of, scope, of.ports.as_slice(), all.as_slice())
        }
    }
}

fn clocks_of(
    alloc: Global,
    of: &ModuleNames<'_>,
    scope: &Scope,
    instances: &[Instance],
    clocks: &mut Vec<Option<NameId>>,
) -> Result<(), Refusal>
    ensures { Leads result (clocks_view clocks.new.items)
        (k.clocks_of (declaration_of of.now.body.now) (scope_of scope.now) (map instance_of instances.now) (clocks_view clocks.old.items)) }
{
    for instance in instances {
        let clock = clock_of(alloc, of, scope, &instance.connections)?;
        clocks.push(clock)?;
    }
    Ok(())
}

// The clock ports of the instances of an item. A module that isn't there was refused before.
fn clocks_in(
    alloc: Global,
    modules: &Modules<'_>,
    scope: &Scope,
    name: NameId,
    instances: &[Instance],
    clocks: &mut Vec<Option<NameId>>,
) -> Result<(), Refusal>
    ensures { Leads result (clocks_view clocks.new.items)
        (k.clocks_in (module_named name.0 (modules_of modules.now)) (scope_of scope.now) (map instance_of instances.now) (clocks_view clocks.old.items)) }
{
    match modules.find(name) {
        None => Ok(()),
        Some(of) => clocks_of(alloc, of, scope, instances, clocks),
    }
}

/// Nets or outputs whose initial values don't mention the clock; 37 ClockMisuse at the first mention.
pub fn variables_free(alloc: Global, scope: &Scope, all: &[Variable]) -> Result<(), Refusal>
    ensures { Answers result (λ x. x) (k.all_free (k.declared_free (scope_of scope.now)) (map declared_of all.now)) }
{
    for one in all {
        value_free(alloc, scope, &one.value)?;
    }
    Ok(())
}

fn regs_free(alloc: Global, scope: &Scope, all: &[RegVariable]) -> Result<(), Refusal>
    ensures { Answers result (λ x. x) (k.all_free (k.reg_free (scope_of scope.now)) (map declared_reg_of all.now)) }
{
    for one in all {
        value_free(alloc, scope, &one.value)?;
    }
    Ok(())
}

fn assignment_free(alloc: Global, scope: &Scope, one: &Continuous) -> Result<(), Refusal>
    ensures { Answers result (λ x. x) (k.assignment_free (scope_of scope.now) (assignment_of one.now)) }
{
    target_free(alloc, scope, &one.target)?;
    clock_free(alloc, scope, one.value.get())
}

fn assignments_free(alloc: Global, scope: &Scope, all: &[Continuous]) -> Result<(), Refusal>
    ensures { Answers result (λ x. x) (k.all_free (k.assignment_free (scope_of scope.now)) (map assignment_of all.now)) }
{
    for one in all {
        assignment_free(alloc, scope, one)?;
    }
    Ok(())
}

/// A port of the header whose initial value doesn't mention the clock; 37 ClockMisuse at the first mention.
pub fn port_free(alloc: Global, scope: &Scope, port: &HeaderPort) -> Result<(), Refusal>
    ensures { Answers result (λ x. x) (k.port_free (scope_of scope.now) (port_of port.now)) }
{
    match port {
        HeaderPort::Input(_, _, _, _) => Ok(()),
        HeaderPort::Output(_, _, _, variable) | HeaderPort::Next(variable) => {
            value_free(alloc, scope, &variable.value)
        }
    }
}

// `posedge` of the clock; 37 at another name.
fn posedge(alloc: Global, scope: &Scope, name: Identifier) -> Result<(), Refusal>
    ensures { Answers result (λ x. x) (k.posedge (scope_of scope.now) name) }
{
    if is_clock(scope, name) {
        Ok(())
    } else {
        Err(refused_at(alloc, 37, name))
    }
}

/// An item: the clock ports of its instances, in their order, behind those so far; 37 ClockMisuse where the clock, or an event of a block, stands
/// where it may not. A module that isn't there was refused before.
pub fn clock_item(
    alloc: Global,
    modules: &Modules<'_>,
    scope: &Scope,
    item: &PlainItem,
    clocks: &mut Vec<Option<NameId>>,
) -> Result<(), Refusal>
    ensures { Leads result (clocks_view clocks.new.items)
        (k.clock_item (modules_of modules.now) (scope_of scope.now) (plain_item_of item.now) (clocks_view clocks.old.items)) }
{
    match item {
        PlainItem::Wire(_, _, nets) => variables_free(alloc, scope, nets.as_slice()),
        PlainItem::Reg(_, _, regs) => regs_free(alloc, scope, regs.as_slice()),
        PlainItem::Assign(_, all) => assignments_free(alloc, scope, all.as_slice()),
        PlainItem::Combinational(_, statement) => statement_free(alloc, scope, statement.get()),
        PlainItem::Clocked(_, name, statement) => {
            posedge(alloc, scope, *name)?;
            statement_free(alloc, scope, statement.get())
        }
        PlainItem::Instances(name, _, all) => {
            clocks_in(alloc, modules, scope, name.name, all.as_slice(), clocks)
        }
        PlainItem::LocalParameter(_, _, _) | PlainItem::Genvar(_, _) => Ok(()),
    }
}
