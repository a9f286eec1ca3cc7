// The ports of a module.
ghost use Rattle.std.specs.Prelude.{◌≡◌, ◌++◌, map, IfOk, OnOk};
ghost use Rattle.verilog_ast.specs.Views.{port_of, ports_of};
ghost use Rattle.module_names.specs.Modules as m;

use crate::name_order::NameOrder;
use ls_text::NoMemory;
use std::alloc::Global;
use verilog_ast::{HeaderPort, Identifier, Ports};

/// The name of a port of a header.
pub fn port_name(port: &HeaderPort) -> Identifier
    ensures { result ≡ m.port_name (port_of port.now) }
{
    match port {
        HeaderPort::Input(_, _, _, name) => *name,
        HeaderPort::Output(_, _, _, variable) | HeaderPort::Next(variable) => variable.name,
    }
}

/// Adds names in their order.
pub fn add_names(names: &mut NameOrder, all: &[Identifier]) -> Result<(), NoMemory>
    ensures { OnOk result (names.new ≡ names.old ++ all.now) }
{
    for one in all {
        names.push(*one)?;
    }
    Ok(())
}

fn add_ports(names: &mut NameOrder, ports: &[HeaderPort]) -> Result<(), NoMemory>
    ensures { OnOk result (names.new ≡ names.old ++ map m.port_name (map port_of ports.now)) }
{
    for port in ports {
        let name = port_name(port);
        names.push(name)?;
    }
    Ok(())
}

fn add_header(names: &mut NameOrder, ports: &Ports) -> Result<(), NoMemory>
    ensures { OnOk result (names.new ≡ names.old ++ m.header_ports (ports_of ports.now)) }
{
    match ports {
        Ports::Nothing => Ok(()),
        Ports::Names(all) => add_names(names, all.as_slice()),
        Ports::Declarations(all) => add_ports(names, all.as_slice()),
    }
}

/// The names of a module's ports, in the order of its header (IEEE Std 1364-2005, 12.3).
pub fn header_ports(alloc: Global, ports: &Ports) -> Result<NameOrder, NoMemory>
    ensures { IfOk result (λ ns. ns ≡ m.header_ports (ports_of ports.now)) }
{
    let mut names = NameOrder::new(alloc);
    add_header(&mut names, ports)?;
    Ok(names)
}
