// The names that a block declares.
ghost use Rattle.std.specs.Prelude.{◌≡◌, ◌∷◌, map, OnOk};
ghost use Rattle.std.specs.Option.{option_map};
ghost use Rattle.verilog_ast.specs.Views.{declared_of, declared_reg_of, instance_of, plain_item_of, generate_item_of, item_of, items_of, port_of, ports_of};
ghost use Rattle.width_rules.specs.Entries.{scope_of, around};
ghost use Rattle.width_rules.specs.Found.{meaning_of};
ghost use Rattle.width_rules.specs.Scopes.{Genvar, Unknown};
ghost use Rattle.gen_unroll.specs.Declarations.{declared, all_declared, net, declared_name, declared_reg_name, instance_name, item_names, port_name, port_names};
ghost use Rattle.gen_unroll.specs.Unrolled.{with_turn};
ghost use Rattle.gen_unroll.specs.Views.{turn_of};

use crate::turn::Turn;
use ls_text::NoMemory;
use typed_ir::SignalId;
use verilog_ast::{
    GenerateItem, HeaderPort, Identifier, Instance, Item, PlainItem, Ports, RegVariable, Variable,
};
use width_rules::{Entry, Scope, SignalEntry, Writer};

// A net or variable. No bit of it is asked for here.
fn net() -> Entry
    ensures { meaning_of result ≡ net }
{
    Entry::Signal(SignalEntry {
        signal: SignalId(0),
        width: 1,
        lsb: 0,
        signed: false,
        writer: Writer::Nothing,
    })
}

/// One more name in reach, in the innermost block.
pub fn declare(scope: &mut Scope, name: Identifier, entry: Entry) -> Result<(), NoMemory>
    ensures names { OnOk result (scope_of scope.new ≡ declared (scope_of scope.old) name (meaning_of entry)) }
    ensures around { OnOk result (around scope.new ≡ around scope.old) }
{
    scope.declare(name.name, entry)
}

fn declare_nets(scope: &mut Scope, names: &[Identifier]) -> Result<(), NoMemory>
    ensures names { OnOk result (scope_of scope.new ≡ all_declared net names.now (scope_of scope.old)) }
    ensures around { OnOk result (around scope.new ≡ around scope.old) }
{
    for name in names {
        declare(scope, *name, net())?;
    }
    Ok(())
}

fn declare_genvars(scope: &mut Scope, names: &[Identifier]) -> Result<(), NoMemory>
    ensures names { OnOk result (scope_of scope.new ≡ all_declared Genvar names.now (scope_of scope.old)) }
    ensures around { OnOk result (around scope.new ≡ around scope.old) }
{
    for name in names {
        declare(scope, *name, Entry::Genvar)?;
    }
    Ok(())
}

fn declare_variables(scope: &mut Scope, variables: &[Variable]) -> Result<(), NoMemory>
    ensures names { OnOk result (scope_of scope.new ≡ all_declared net (map declared_name (map declared_of variables.now)) (scope_of scope.old)) }
    ensures around { OnOk result (around scope.new ≡ around scope.old) }
{
    for variable in variables {
        declare(scope, variable.name, net())?;
    }
    Ok(())
}

fn declare_regs(scope: &mut Scope, regs: &[RegVariable]) -> Result<(), NoMemory>
    ensures names { OnOk result (scope_of scope.new ≡ all_declared net (map declared_reg_name (map declared_reg_of regs.now)) (scope_of scope.old)) }
    ensures around { OnOk result (around scope.new ≡ around scope.old) }
{
    for reg in regs {
        declare(scope, reg.name, net())?;
    }
    Ok(())
}

fn declare_instances(scope: &mut Scope, instances: &[Instance]) -> Result<(), NoMemory>
    ensures names { OnOk result (scope_of scope.new ≡ all_declared Unknown (map instance_name (map instance_of instances.now)) (scope_of scope.old)) }
    ensures around { OnOk result (around scope.new ≡ around scope.old) }
{
    for instance in instances {
        declare(scope, instance.name, Entry::Unknown)?;
    }
    Ok(())
}

fn declare_plain(scope: &mut Scope, item: &PlainItem) -> Result<(), NoMemory>
    ensures names { OnOk result (scope_of scope.new ≡ item_names (plain_item_of item.now) (scope_of scope.old)) }
    ensures around { OnOk result (around scope.new ≡ around scope.old) }
{
    match item {
        PlainItem::Wire(_, _, nets) => declare_variables(scope, nets.as_slice()),
        PlainItem::Reg(_, _, regs) => declare_regs(scope, regs.as_slice()),
        PlainItem::Genvar(_, names) => declare_genvars(scope, names.as_slice()),
        PlainItem::Instances(_, _, instances) => declare_instances(scope, instances.as_slice()),
        PlainItem::LocalParameter(_, _, _)
        | PlainItem::Assign(_, _)
        | PlainItem::Combinational(_, _)
        | PlainItem::Clocked(_, _, _) => Ok(()),
    }
}

fn declare_item(scope: &mut Scope, item: &GenerateItem) -> Result<(), NoMemory>
    ensures names { OnOk result (scope_of scope.new ≡ item_names (generate_item_of item.now) (scope_of scope.old)) }
    ensures around { OnOk result (around scope.new ≡ around scope.old) }
{
    match item {
        GenerateItem::Plain(item) => declare_plain(scope, item),
        GenerateItem::For(_, _, _, _) | GenerateItem::If(_) => Ok(()),
    }
}

// The names that stand among the items of a block themselves: nets, variables, genvars and instances.
fn declare_items(scope: &mut Scope, items: &[GenerateItem]) -> Result<(), NoMemory>
    ensures names { OnOk result (scope_of scope.new ≡ item_names (items_of (map generate_item_of items.now)) (scope_of scope.old)) }
    ensures around { OnOk result (around scope.new ≡ around scope.old) }
{
    for item in items {
        declare_item(scope, item)?;
    }
    Ok(())
}

// The genvar of a loop's turn, with its value.
fn declare_turn(scope: &mut Scope, turn: Option<Turn>) -> Result<(), NoMemory>
    ensures names { OnOk result (scope_of scope.new ≡ with_turn (option_map turn_of turn) (scope_of scope.old)) }
    ensures around { OnOk result (around scope.new ≡ around scope.old) }
{
    match turn {
        None => Ok(()),
        Some(turn) => declare(scope, turn.genvar, Entry::Turn(turn.value)),
    }
}

/// Opens a block: its genvar is known in it, where it is a loop's, and the names that stand among its items themselves.
pub fn open_block(
    scope: &mut Scope,
    turn: Option<Turn>,
    items: &[GenerateItem],
) -> Result<(), NoMemory>
    ensures names { OnOk result (scope_of scope.new ≡ item_names (items_of (map generate_item_of items.now)) (with_turn (option_map turn_of turn) (scope_of scope.old))) }
    ensures around { OnOk result (around scope.new ≡ scope_of scope.old ∷ around scope.old) }
{
    scope.open_block()?;
    declare_turn(scope, turn)?;
    declare_items(scope, items)
}

fn declare_module_item(scope: &mut Scope, item: &Item) -> Result<(), NoMemory>
    ensures names { OnOk result (scope_of scope.new ≡ item_names (item_of item.now) (scope_of scope.old)) }
    ensures around { OnOk result (around scope.new ≡ around scope.old) }
{
    match item {
        Item::Input(_, _, _, names) => declare_nets(scope, names.as_slice()),
        Item::Output(_, _, _, ports) => declare_variables(scope, ports.as_slice()),
        Item::Parameter(_, _, _) => Ok(()),
        Item::Region(_, items) => declare_items(scope, items.as_slice()),
        Item::Item(item) => declare_item(scope, item),
    }
}

/// The names that stand among the items of a module themselves.
pub fn declare_module_items(scope: &mut Scope, items: &[Item]) -> Result<(), NoMemory>
    ensures names { OnOk result (scope_of scope.new ≡ item_names (items_of (map item_of items.now)) (scope_of scope.old)) }
    ensures around { OnOk result (around scope.new ≡ around scope.old) }
{
    for item in items {
        declare_module_item(scope, item)?;
    }
    Ok(())
}

// The name of a port of a header.
fn port_name(port: &HeaderPort) -> Identifier
    ensures { result ≡ port_name (port_of port.now) }
{
    match port {
        HeaderPort::Input(_, _, _, name) => *name,
        HeaderPort::Output(_, _, _, variable) | HeaderPort::Next(variable) => variable.name,
    }
}

fn declare_header_ports(scope: &mut Scope, ports: &[HeaderPort]) -> Result<(), NoMemory>
    ensures names { OnOk result (scope_of scope.new ≡ all_declared net (map port_name (map port_of ports.now)) (scope_of scope.old)) }
    ensures around { OnOk result (around scope.new ≡ around scope.old) }
{
    for port in ports {
        declare(scope, port_name(port), net())?;
    }
    Ok(())
}

/// The names of the ports that a header declares.
pub fn declare_ports(scope: &mut Scope, ports: &Ports) -> Result<(), NoMemory>
    ensures names { OnOk result (scope_of scope.new ≡ port_names (ports_of ports.now) (scope_of scope.old)) }
    ensures around { OnOk result (around scope.new ≡ around scope.old) }
{
    match ports {
        Ports::Nothing | Ports::Names(_) => Ok(()),
        Ports::Declarations(ports) => declare_header_ports(scope, ports.as_slice()),
    }
}
