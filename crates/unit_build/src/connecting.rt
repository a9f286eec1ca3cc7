// The connections of an instance in the order of the text, each with its port.
ghost use Rattle.std.specs.Prelude.{◌≡◌, ◌++◌, map, OnOk, IfOk};
ghost use Rattle.std.specs.Option.{option_map};
ghost use Rattle.typed_ir.specs.Shapes.{is_clock};
ghost use Rattle.verilog_ast.specs.Views.{expression_of, by_name_of, by_order_of, connections_of};
ghost use Rattle.unit_build.specs.Connections.{connection_if, to_port, to_found, connected_by_name, connected_by_order, connected_to};
ghost use Rattle.unit_build.specs.Views.{connected_of};

use crate::connection::Connection;
use crate::finding::names_of;
use ls_text::{NameId, NoMemory};
use std::alloc::Global;
use typed_ir::{ChildShape, PortShape};
use verilog_ast::{Child, Connections, Expr, NamedConnection, OrderedConnection};

// Whether a port is the clock port.
fn is_clock(clock: Option<NameId>, name: NameId) -> bool
    ensures { result ≡ is_clock clock name }
{
    match clock {
        None => false,
        Some(clock) => clock.0 == name.0,
    }
}

// Adds the connection of a port, unless it is empty or that of the clock.
fn add_if<'a>(
    found: &mut Vec<Connection<'a>>,
    clock: Option<NameId>,
    port: u32,
    shape: PortShape,
    value: &'a Option<Child<Expr>>,
) -> Result<(), NoMemory>
    ensures { OnOk result (map connected_of found.new.items ≡ map connected_of found.old.items ++ connection_if clock port shape (option_map expression_of value.now)) }
{
    match value {
        None => Ok(()),
        Some(e) => {
            if is_clock(clock, shape.name) {
                return Ok(());
            }
            found.push(Connection {
                port,
                shape,
                value: e.get(),
            })?;
            Ok(())
        }
    }
}

// Adds the connection of the port of this number, where there is one.
fn add<'a>(
    found: &mut Vec<Connection<'a>>,
    child: &ChildShape,
    port: usize,
    value: &'a Option<Child<Expr>>,
) -> Result<(), NoMemory>
    ensures { OnOk result (map connected_of found.new.items ≡ map connected_of found.old.items ++ to_port child.now port (option_map expression_of value.now)) }
{
    let ports = child.ports.as_slice();
    if port >= ports.len() {
        return Ok(());
    }
    if port > u32::MAX as usize {
        return Err(NoMemory);
    }
    add_if(found, child.clock, port as u32, ports[port], value)
}

// The same of a port that was found by its name.
fn add_found<'a>(
    found: &mut Vec<Connection<'a>>,
    child: &ChildShape,
    port: Option<usize>,
    value: &'a Option<Child<Expr>>,
) -> Result<(), NoMemory>
    ensures { OnOk result (map connected_of found.new.items ≡ map connected_of found.old.items ++ to_found child.now port (option_map expression_of value.now)) }
{
    match port {
        None => Ok(()),
        Some(port) => add(found, child, port, value),
    }
}

// Connections by name.
fn by_name<'a>(
    alloc: Global,
    child: &ChildShape,
    all: &'a [NamedConnection],
) -> Result<Vec<Connection<'a>>, NoMemory>
    ensures { IfOk result (λ cs. map connected_of cs.items ≡ connected_by_name child.now (map by_name_of all.now)) }
{
    let names = names_of(alloc, child.ports.as_slice())?;
    let mut found = Vec::new(alloc);
    for one in all {
        let port = names.find(one.name.name);
        add_found(&mut found, child, port, &one.value)?;
    }
    Ok(found)
}

// Connections by order.
fn by_order<'a>(
    alloc: Global,
    child: &ChildShape,
    all: &'a [OrderedConnection],
) -> Result<Vec<Connection<'a>>, NoMemory>
    ensures { IfOk result (λ cs. map connected_of cs.items ≡ connected_by_order child.now 0 (map by_order_of all.now)) }
{
    let mut found = Vec::new(alloc);
    for (port, one) in all.iter().enumerate() {
        add(&mut found, child, port, &one.value)?;
    }
    Ok(found)
}

/// The connections of an instance of this shape in the order of the text, by name or by order, each with its port (IEEE Std 1364-2005,
/// 12.3.5, 12.3.6). One that is empty, that of the clock port, and one to no port are left out. 2^32 ports are want of memory.
pub fn connected<'a>(
    alloc: Global,
    child: &ChildShape,
    connections: &'a Connections,
) -> Result<Vec<Connection<'a>>, NoMemory>
    ensures { IfOk result (λ cs. map connected_of cs.items ≡ connected_to child.now (connections_of connections.now)) }
{
    match connections {
        Connections::Named(all) => by_name(alloc, child, all.as_slice()),
        Connections::Ordered(all) => by_order(alloc, child, all.as_slice()),
    }
}
