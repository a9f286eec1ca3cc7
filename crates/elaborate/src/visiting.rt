// The visit of a module: its own checks, its ports and its clock.
ghost use Rattle.std.specs.Prelude.{◌≡◌, map, drop, IfOk};
ghost use Rattle.std.specs.Option.{option_map};
ghost use Rattle.verilog_ast.specs.Views.{declaration_of as plain_module};
ghost use Rattle.gen_unroll.specs.Steps.{blocks_in};
ghost use Rattle.gen_unroll.specs.Told.{fault_in};
ghost use Rattle.gen_unroll.specs.Unrolled.{unrolled_module};
ghost use Rattle.ls_text.specs.Answers.{Answers};
ghost use Rattle.gen_unroll.specs.Views.{bit_range_of, block_of, override_view, step_of};
ghost use Rattle.elaborate.specs.Clocks as k;
ghost use Rattle.elaborate.specs.Visits as v;
ghost use Rattle.elaborate.specs.Ports as p;
ghost use Rattle.clock_rules.specs.Views.{clock_view, clocks_view};
ghost use Rattle.elaborate.specs.Views.{checked_of, declaration_of, table_of, port_of, visited_of};
ghost use Rattle.module_names.specs.Modules.{header_ports};
ghost use Rattle.module_names.specs.Views.{modules_of};

use crate::checking::Checking;
use crate::checks::check;
use crate::clocking::{clocks, own_clock, width_of};
use crate::clocks_and_ports::ClocksAndPorts;
use crate::declaration::Declaration;
use crate::declarations::Declarations;
use crate::declaring::is_input;
use crate::visited::Visited;
use gen_unroll::{Block, Step, Unrolled, unroll_within};
use ls_text::{Fault, NameId, NoMemory, Refusal};
use module_names::{ModuleNames, Modules};
use std::alloc::Global;
use typed_ir::{Const, PortShape};
use verilog_ast::Identifier;
use width_rules::refused_at;

// The first port beyond those that a top module may have: 40 at its name.
fn few_ports(alloc: Global, most: usize, ports: &[Identifier]) -> Result<(), Refusal>
    ensures { Answers result (λ x. x) (v.none_beyond (drop most ports.now)) }
{
    if most < ports.len() {
        Err(refused_at(alloc, 40, ports[most]))
    } else {
        Ok(())
    }
}

// The ports of a top, and its clock among them.
fn top_ports(
    alloc: Global,
    most: Option<usize>,
    clock: Option<NameId>,
    ports: &[Identifier],
    table: &Declarations,
) -> Result<(), Refusal>
    ensures { Answers result (λ x. x) (v.top_ports most (clock_view clock) ports.now (table_of table.now)) }
{
    match most {
        None => Ok(()),
        Some(most) => {
            few_ports(alloc, most, ports)?;
            own_clock(alloc, clock, ports, table)
        }
    }
}

// A port of the header, as instances of the module see it.
fn port_shape(port: Identifier, found: Option<Declaration>) -> PortShape
    ensures { port_of result ≡ p.outline port (option_map declaration_of found) }
{
    match found {
        None => PortShape {
            name: port.name,
            input: false,
            width: 1,
            signed: false,
        },
        Some(found) => PortShape {
            name: port.name,
            input: is_input(found.kind),
            width: width_of(found.range),
            signed: found.signed,
        },
    }
}

fn port_shapes(
    alloc: Global,
    ports: &[Identifier],
    table: &Declarations,
) -> Result<Vec<PortShape>, NoMemory>
    ensures { IfOk result (λ shapes. map port_of shapes.items ≡ p.port_outlines ports.now (table_of table.now)) }
{
    let mut shapes = Vec::new(alloc);
    for port in ports {
        let found = table.find(None, port.name);
        shapes.push(port_shape(*port, found))?;
    }
    Ok(shapes)
}

// The ports of a top, and then the clock in the order of the text.
fn clocked(
    alloc: Global,
    modules: &Modules<'_>,
    of: &ModuleNames<'_>,
    steps: &[Step<'_>],
    most: Option<usize>,
    clock: Option<NameId>,
    table: &Declarations,
) -> Result<Vec<Option<NameId>>, Refusal>
    ensures { Answers result (λ ks. clocks_view ks.items)
        (v.clocked (modules_of modules.now) (plain_module of.now.body.now) (map step_of steps.now) most (clock_view clock) (table_of table.now)) }
{
    top_ports(alloc, most, clock, of.ports.as_slice(), table)?;
    clocks(alloc, modules, of, clock, table, steps)
}

// What is found behind the checks: the clock ports of the instances, and the ports.
fn clocks_and_ports(
    alloc: Global,
    modules: &Modules<'_>,
    of: &ModuleNames<'_>,
    steps: &[Step<'_>],
    most: Option<usize>,
    clock: Option<NameId>,
    table: &Declarations,
) -> Result<ClocksAndPorts, Refusal>
    ensures clocks { Answers result (λ x. clocks_view x.clocks.items)
        (v.clocked (modules_of modules.now) (plain_module of.now.body.now) (map step_of steps.now) most (clock_view clock) (table_of table.now)) }
    ensures ports { IfOk result (λ x. map port_of x.ports.items ≡ p.port_outlines (header_ports (plain_module of.now.body.now).ports) (table_of table.now)) }
{
    let clocks = clocked(alloc, modules, of, steps, most, clock, table)?;
    let ports = port_shapes(alloc, of.ports.as_slice(), table)?;
    Ok(ClocksAndPorts { clocks, ports })
}

// What is found behind the checks of a module.
fn visit_checked(
    alloc: Global,
    modules: &Modules<'_>,
    most: Option<usize>,
    of: &ModuleNames<'_>,
    clock: Option<NameId>,
    steps: &[Step<'_>],
    blocks: Vec<Block>,
    checks: Checking,
) -> Result<Visited, Refusal>
    requires { map block_of blocks.items ≡ blocks_in (map step_of steps.now) }
    ensures { Answers result visited_of
        (v.behind_checks (modules_of modules.now) (plain_module of.now.body.now) (map step_of steps.now) most (clock_view clock) (checked_of checks)) }
{
    let ClocksAndPorts { clocks, ports } = clocks_and_ports(
        alloc,
        modules,
        of,
        steps,
        most,
        clock,
        &checks.declared,
    )?;
    Ok(Visited {
        checks,
        clocks,
        blocks,
        ports,
    })
}

// What is found along the steps of a module.
#[tactic(auto, unfolding(crate::specs::Visits::visited))]
fn visit_unrolled(
    alloc: Global,
    turns: u32,
    modules: &Modules<'_>,
    most: Option<usize>,
    of: &ModuleNames<'_>,
    overrides: &[Option<Const>],
    clock: Option<NameId>,
    steps: &[Step<'_>],
    blocks: Vec<Block>,
    fault: Option<Fault>,
) -> Result<Visited, Refusal>
    requires said { map step_of steps.now ≡ (unrolled_module turns (map override_view overrides.now) (plain_module of.now.body.now)).said }
    requires blocks { map block_of blocks.items ≡ blocks_in (unrolled_module turns (map override_view overrides.now) (plain_module of.now.body.now)).said }
    requires ends { fault ≡ fault_in (unrolled_module turns (map override_view overrides.now) (plain_module of.now.body.now)).ending }
    ensures { Answers result visited_of
        (v.visited turns (modules_of modules.now) most (plain_module of.now.body.now) (map override_view overrides.now) (clock_view clock)) }
{
    let checks = check(alloc, turns, modules, of, overrides, steps, fault)?;
    visit_checked(alloc, modules, most, of, clock, steps, blocks, checks)
}

/// The visit of a module under these overrides and with this clock port; a top has at most so many ports.
///
/// Faults: those of its own checks, step by step; then of a top 40 TooMany at a port beyond `most` and 37 ClockMisuse at its clock port in
/// the header; then 37 in the order of the text. Else want of memory.
pub fn visit(
    alloc: Global,
    turns: u32,
    modules: &Modules<'_>,
    most: Option<usize>,
    of: &ModuleNames<'_>,
    overrides: &[Option<Const>],
    clock: Option<NameId>,
) -> Result<Visited, Refusal>
    ensures { Answers result visited_of
        (v.visited turns (modules_of modules.now) most (plain_module of.now.body.now) (map override_view overrides.now) (clock_view clock)) }
{
    let Unrolled {
        steps,
        blocks,
        fault,
    } = unroll_within(alloc, of.body, overrides, turns)?;
    visit_unrolled(
        alloc, turns, modules, most, of, overrides, clock, &steps, blocks, fault,
    )
}
