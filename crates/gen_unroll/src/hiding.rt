// The nets and variables of a block as names that stand for nothing, before its signals are declared.
ghost use Rattle.std.specs.Prelude.{◌≡◌, map, OnOk};
ghost use Rattle.verilog_ast.specs.Views.{declared_of, declared_reg_of, plain_item_of, generate_item_of, item_of, items_of, port_of, ports_of, declaration_of};
ghost use Rattle.width_rules.specs.Entries.{scope_of, around};
ghost use Rattle.width_rules.specs.Scopes.{Unknown};
ghost use Rattle.gen_unroll.specs.Declarations.{declared, all_declared, declared_name, declared_reg_name, port_name};
ghost use Rattle.gen_unroll.specs.UnitReaches.{hidden, hidden_ports, hidden_module};

use crate::heading::port_name;
use ls_text::NoMemory;
use verilog_ast::{
    GenerateItem, HeaderPort, Identifier, Item, ModuleBody, PlainItem, Ports, RegVariable, Variable,
};
use width_rules::{Entry, Scope};

// One name stands for nothing, in the innermost block.
fn hide(scope: &mut Scope, name: Identifier) -> Result<(), NoMemory>
    ensures names { OnOk result (scope_of scope.new ≡ declared (scope_of scope.old) name Unknown) }
    ensures around { OnOk result (around scope.new ≡ around scope.old) }
{
    scope.declare(name.name, Entry::Unknown)
}

fn hide_names(scope: &mut Scope, names: &[Identifier]) -> Result<(), NoMemory>
    ensures names { OnOk result (scope_of scope.new ≡ all_declared Unknown names.now (scope_of scope.old)) }
    ensures around { OnOk result (around scope.new ≡ around scope.old) }
{
    for name in names {
        hide(scope, *name)?;
    }
    Ok(())
}

fn hide_variables(scope: &mut Scope, variables: &[Variable]) -> Result<(), NoMemory>
    ensures names { OnOk result (scope_of scope.new ≡ all_declared Unknown (map declared_name (map declared_of variables.now)) (scope_of scope.old)) }
    ensures around { OnOk result (around scope.new ≡ around scope.old) }
{
    for variable in variables {
        hide(scope, variable.name)?;
    }
    Ok(())
}

fn hide_regs(scope: &mut Scope, regs: &[RegVariable]) -> Result<(), NoMemory>
    ensures names { OnOk result (scope_of scope.new ≡ all_declared Unknown (map declared_reg_name (map declared_reg_of regs.now)) (scope_of scope.old)) }
    ensures around { OnOk result (around scope.new ≡ around scope.old) }
{
    for reg in regs {
        hide(scope, reg.name)?;
    }
    Ok(())
}

fn hide_plain(scope: &mut Scope, item: &PlainItem) -> Result<(), NoMemory>
    ensures names { OnOk result (scope_of scope.new ≡ hidden (plain_item_of item.now) (scope_of scope.old)) }
    ensures around { OnOk result (around scope.new ≡ around scope.old) }
{
    match item {
        PlainItem::Wire(_, _, nets) => hide_variables(scope, nets.as_slice()),
        PlainItem::Reg(_, _, regs) => hide_regs(scope, regs.as_slice()),
        PlainItem::LocalParameter(_, _, _)
        | PlainItem::Genvar(_, _)
        | PlainItem::Assign(_, _)
        | PlainItem::Combinational(_, _)
        | PlainItem::Clocked(_, _, _)
        | PlainItem::Instances(_, _, _) => Ok(()),
    }
}

fn hide_item(scope: &mut Scope, item: &GenerateItem) -> Result<(), NoMemory>
    ensures names { OnOk result (scope_of scope.new ≡ hidden (generate_item_of item.now) (scope_of scope.old)) }
    ensures around { OnOk result (around scope.new ≡ around scope.old) }
{
    match item {
        GenerateItem::Plain(item) => hide_plain(scope, item),
        GenerateItem::For(_, _, _, _) | GenerateItem::If(_) => Ok(()),
    }
}

/// The nets and variables that stand among the items of a block themselves.
pub fn hide_items(scope: &mut Scope, items: &[GenerateItem]) -> Result<(), NoMemory>
    ensures names { OnOk result (scope_of scope.new ≡ hidden (items_of (map generate_item_of items.now)) (scope_of scope.old)) }
    ensures around { OnOk result (around scope.new ≡ around scope.old) }
{
    for item in items {
        hide_item(scope, item)?;
    }
    Ok(())
}

fn hide_module_item(scope: &mut Scope, item: &Item) -> Result<(), NoMemory>
    ensures names { OnOk result (scope_of scope.new ≡ hidden (item_of item.now) (scope_of scope.old)) }
    ensures around { OnOk result (around scope.new ≡ around scope.old) }
{
    match item {
        Item::Input(_, _, _, names) => hide_names(scope, names.as_slice()),
        Item::Output(_, _, _, ports) => hide_variables(scope, ports.as_slice()),
        Item::Parameter(_, _, _) => Ok(()),
        Item::Region(_, items) => hide_items(scope, items.as_slice()),
        Item::Item(item) => hide_item(scope, item),
    }
}

// Those that stand among the items of a module themselves.
fn hide_module_items(scope: &mut Scope, items: &[Item]) -> Result<(), NoMemory>
    ensures names { OnOk result (scope_of scope.new ≡ hidden (items_of (map item_of items.now)) (scope_of scope.old)) }
    ensures around { OnOk result (around scope.new ≡ around scope.old) }
{
    for item in items {
        hide_module_item(scope, item)?;
    }
    Ok(())
}

fn hide_header_ports(scope: &mut Scope, ports: &[HeaderPort]) -> Result<(), NoMemory>
    ensures names { OnOk result (scope_of scope.new ≡ all_declared Unknown (map port_name (map port_of ports.now)) (scope_of scope.old)) }
    ensures around { OnOk result (around scope.new ≡ around scope.old) }
{
    for port in ports {
        hide(scope, port_name(port))?;
    }
    Ok(())
}

// The ports of a header that declares them.
fn hide_ports(scope: &mut Scope, ports: &Ports) -> Result<(), NoMemory>
    ensures names { OnOk result (scope_of scope.new ≡ hidden_ports (ports_of ports.now) (scope_of scope.old)) }
    ensures around { OnOk result (around scope.new ≡ around scope.old) }
{
    match ports {
        Ports::Nothing | Ports::Names(_) => Ok(()),
        Ports::Declarations(ports) => hide_header_ports(scope, ports.as_slice()),
    }
}

/// The nets and variables of a module itself: the ports that its header declares, and those among its items.
pub fn hide_module(scope: &mut Scope, of: &ModuleBody) -> Result<(), NoMemory>
    ensures names { OnOk result (scope_of scope.new ≡ hidden_module (declaration_of of.now) (scope_of scope.old)) }
    ensures around { OnOk result (around scope.new ≡ around scope.old) }
{
    hide_ports(scope, &of.ports)?;
    hide_module_items(scope, of.items.as_slice())
}
