// The inputs of a module.
ghost use Rattle.std.specs.Prelude.{◌≡◌, ◌++◌, true, map, IfOk, OnOk};
ghost use Rattle.verilog_ast.specs.Views.{item_of, items_of, port_of, ports_of, declaration_of};
ghost use Rattle.module_names.specs.Modules as m;

use crate::name_order::NameOrder;
use crate::parameters::declares_no_port;
use crate::ports::{add_names, port_name};
use ls_text::NoMemory;
use std::alloc::Global;
use verilog_ast::{HeaderPort, Item, ModuleBody, Ports};

// Whether a port of a header is an input, where this is the direction of the port before.
fn is_input(before: bool, port: &HeaderPort) -> bool
    ensures { result ≡ m.is_input before (port_of port.now) }
{
    match port {
        HeaderPort::Input(_, _, _, _) => true,
        HeaderPort::Output(_, _, _, _) => false,
        HeaderPort::Next(_) => before,
    }
}

// Adds the name of a port that is an input.
fn add_if(names: &mut NameOrder, input: bool, port: &HeaderPort) -> Result<(), NoMemory>
    ensures { OnOk result (names.new ≡ names.old ++ m.name_if input (port_of port.now)) }
{
    if !input {
        return Ok(());
    }
    let name = port_name(port);
    names.push(name)
}

fn add_declared(names: &mut NameOrder, ports: &[HeaderPort]) -> Result<(), NoMemory>
    ensures { OnOk result (names.new ≡ names.old ++ m.declared_inputs true (map port_of ports.now)) }
{
    let mut input = true;
    for port in ports {
        input = is_input(input, port);
        add_if(names, input, port)?;
    }
    Ok(())
}

fn add_header(names: &mut NameOrder, ports: &Ports) -> Result<(), NoMemory>
    ensures { OnOk result (names.new ≡ names.old ++ m.header_inputs (ports_of ports.now)) }
{
    match ports {
        Ports::Nothing | Ports::Names(_) => Ok(()),
        Ports::Declarations(all) => add_declared(names, all.as_slice()),
    }
}

fn add_item(names: &mut NameOrder, item: &Item) -> Result<(), NoMemory>
    ensures { OnOk result (names.new ≡ names.old ++ m.item_inputs (item_of item.now)) }
{
    match item {
        Item::Input(_, _, _, all) => add_names(names, all.as_slice()),
        Item::Output(_, _, _, _) | Item::Parameter(_, _, _) | Item::Region(_, _) => Ok(()),
        Item::Item(item) => {
            declares_no_port(item);
            Ok(())
        }
    }
}

fn add_items(names: &mut NameOrder, items: &[Item]) -> Result<(), NoMemory>
    ensures { OnOk result (names.new ≡ names.old ++ m.item_inputs (items_of (map item_of items.now))) }
{
    for item in items {
        add_item(names, item)?;
    }
    Ok(())
}

/// The names of a module's inputs: those of its header, and then those of its body (IEEE Std 1364-2005, 12.3.3).
pub fn inputs_of(alloc: Global, of: &ModuleBody) -> Result<NameOrder, NoMemory>
    ensures { IfOk result (λ ns. ns ≡ m.inputs_of (declaration_of of.now)) }
{
    let mut names = NameOrder::new(alloc);
    add_header(&mut names, &of.ports)?;
    add_items(&mut names, of.items.as_slice())?;
    Ok(names)
}
