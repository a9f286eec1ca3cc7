// The clock of a module: its own port, and its steps with the clock ports of their instances.
ghost use Rattle.std.specs.Prelude.{◌≡◌, [], map, OnOk};
ghost use Rattle.std.specs.Option.{option_map};
ghost use Rattle.verilog_ast.specs.Views.{declared_of, port_of, plain_item_of, declaration_of};
ghost use Rattle.width_rules.specs.Entries.{scope_of};
ghost use Rattle.gen_unroll.specs.Declarations.{declared_width};
ghost use Rattle.gen_unroll.specs.Reaches.{reach_in, IsEven};
ghost use Rattle.ls_text.specs.Answers.{Answers, Leads};
ghost use Rattle.gen_unroll.specs.ReachViews.{reach_of};
ghost use Rattle.gen_unroll.specs.Views.{bit_range_of, step_of};
ghost use Rattle.clock_rules.specs.Views.{clock_view, clocks_view};
ghost use Rattle.elaborate.specs.Clocks as k;
ghost use Rattle.module_names.specs.Modules.{port_name};
ghost use Rattle.elaborate.specs.Views.{declaration_of as plain_declaration, table_of};
ghost use Rattle.module_names.specs.Views.{modules_of};

use crate::declaration::Declaration;
use crate::declarations::Declarations;
use crate::declaring::is_input;
use clock_rules::{clock_item, port_free, variables_free};
use gen_unroll::{BitRange, Reach, Step};
use ls_text::{NameId, NoMemory, Refusal};
use module_names::{ModuleNames, Modules};
use std::alloc::Global;
use typed_ir::SignalId;
use verilog_ast::{HeaderPort, Identifier};
use width_rules::{Entry, Scope, SignalEntry, Writer, refused_at};

/// How many bits a declaration has.
pub fn width_of(range: Option<BitRange>) -> u8
    ensures { result ≡ declared_width (option_map bit_range_of range) }
{
    match range {
        None => 1,
        Some(range) => range.width,
    }
}

// Whether a name is declared as an input of one bit.
fn is_one_bit_input(found: Option<Declaration>) -> bool
    ensures { result ≡ k.is_one_bit_input (option_map plain_declaration found) }
{
    match found {
        None => false,
        Some(found) => is_input(found.kind) && width_of(found.range) == 1,
    }
}

// A port of the header: 37 at its name where it is the clock port and no input of one bit.
fn own_port(
    alloc: Global,
    clock: Option<NameId>,
    table: &Declarations,
    port: Identifier,
) -> Result<(), Refusal>
    ensures { Answers result (λ x. x) (k.own_port (clock_view clock) (table_of table.now) port) }
{
    match clock {
        None => Ok(()),
        Some(name) => {
            if name != port.name {
                return Ok(());
            }
            if is_one_bit_input(table.find(None, port.name)) {
                Ok(())
            } else {
                Err(refused_at(alloc, 37, port))
            }
        }
    }
}

/// The clock port of a module: 37 ClockMisuse at its name in the header where it is no input of one bit.
pub fn own_clock(
    alloc: Global,
    clock: Option<NameId>,
    ports: &[Identifier],
    table: &Declarations,
) -> Result<(), Refusal>
    ensures { Answers result (λ x. x) (k.own_clock (clock_view clock) ports.now (table_of table.now)) }
{
    for port in ports {
        own_port(alloc, clock, table, *port)?;
    }
    Ok(())
}

fn port_name(port: &HeaderPort) -> Identifier
    ensures { result ≡ port_name (port_of port.now) }
{
    match port {
        HeaderPort::Input(_, _, _, name) => *name,
        HeaderPort::Output(_, _, _, variable) | HeaderPort::Next(variable) => variable.name,
    }
}

// A port that the header declares: its name, and then its initial value.
fn declared_port(
    alloc: Global,
    clock: Option<NameId>,
    table: &Declarations,
    scope: &Scope,
    port: &HeaderPort,
) -> Result<(), Refusal>
    ensures { Answers result (λ x. x) (k.declared_port (clock_view clock) (table_of table.now) (scope_of scope.now) (port_of port.now)) }
{
    own_port(alloc, clock, table, port_name(port))?;
    port_free(alloc, scope, port)
}

fn clock_step(
    alloc: Global,
    modules: &Modules<'_>,
    clock: Option<NameId>,
    table: &Declarations,
    scope: &Scope,
    step: &Step<'_>,
    clocks: &mut Vec<Option<NameId>>,
) -> Result<(), Refusal>
    ensures { Leads result (clocks_view clocks.new.items)
        (k.clock_step (modules_of modules.now) (clock_view clock) (table_of table.now) (scope_of scope.now) (step_of step.now) (clocks_view clocks.old.items)) }
{
    match step {
        Step::Listed(name) => own_port(alloc, clock, table, *name),
        Step::Port(port) => declared_port(alloc, clock, table, scope, port),
        Step::Outputs(_, _, _, ports) => variables_free(alloc, scope, ports),
        Step::Item(item) => clock_item(alloc, modules, scope, item, clocks),
        Step::Inputs(_, _, _, _)
        | Step::Parameter(_, _, _)
        | Step::Label(_)
        | Step::Open(_, _)
        | Step::Close => Ok(()),
    }
}

fn clock_steps(
    alloc: Global,
    modules: &Modules<'_>,
    clock: Option<NameId>,
    table: &Declarations,
    here: &mut Reach,
    steps: &[Step<'_>],
    clocks: &mut Vec<Option<NameId>>,
) -> Result<(), Refusal>
    requires { IsEven (reach_of here.old) }
    ensures { Leads result (clocks_view clocks.new.items)
        (k.clock_steps (modules_of modules.now) (clock_view clock) (table_of table.now) (reach_of here.old) (map step_of steps.now) (clocks_view clocks.old.items)) }
{
    for step in steps {
        clock_step(alloc, modules, clock, table, &here.scope, step, clocks)?;
        here.follow(step)?;
    }
    Ok(())
}

// The clock among the names in reach.
fn mark_clock(here: &mut Reach, clock: Option<NameId>) -> Result<(), NoMemory>
    requires { IsEven (reach_of here.old) }
    ensures reach { OnOk result (reach_of here.new ≡ k.with_clock (clock_view clock) (reach_of here.old)) }
    ensures even { OnOk result (IsEven (reach_of here.new)) }
{
    match clock {
        None => Ok(()),
        Some(name) => here.scope.declare(
            name,
            Entry::Signal(SignalEntry {
                signal: SignalId(1),
                width: 1,
                lsb: 0,
                signed: false,
                writer: Writer::Nothing,
            }),
        ),
    }
}

// The clock ports of the instances, with the names in reach before the first step.
fn clocks_along(
    alloc: Global,
    modules: &Modules<'_>,
    clock: Option<NameId>,
    table: &Declarations,
    here: &mut Reach,
    steps: &[Step<'_>],
) -> Result<Vec<Option<NameId>>, Refusal>
    requires { IsEven (reach_of here.old) }
    ensures { Answers result (λ ks. clocks_view ks.items)
        (k.clock_steps (modules_of modules.now) (clock_view clock) (table_of table.now) (k.with_clock (clock_view clock) (reach_of here.old)) (map step_of steps.now) []) }
{
    mark_clock(here, clock)?;
    let mut clocks = Vec::new(alloc);
    clock_steps(alloc, modules, clock, table, here, steps, &mut clocks)?;
    Ok(clocks)
}

/// The clock ports of the instances of a module, whose clock port this is; 37 ClockMisuse where the clock, or an event of a block, stands
/// where it may not.
pub fn clocks(
    alloc: Global,
    modules: &Modules<'_>,
    of: &ModuleNames<'_>,
    clock: Option<NameId>,
    table: &Declarations,
    steps: &[Step<'_>],
) -> Result<Vec<Option<NameId>>, Refusal>
    ensures { Answers result (λ ks. clocks_view ks.items)
        (k.clock_steps (modules_of modules.now) (clock_view clock) (table_of table.now) (k.with_clock (clock_view clock) (reach_in (declaration_of of.now.body.now))) (map step_of steps.now) []) }
{
    let mut here = Reach::new(alloc, of.body)?;
    clocks_along(alloc, modules, clock, table, &mut here, steps)
}
