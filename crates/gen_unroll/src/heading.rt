// The signals of a table of declarations in the order of their numbers.
ghost use Rattle.std.specs.Prelude.{◌≡◌, ◌++◌, ◌∷◌, [], filter, map, IfOk, OnOk};
ghost use Rattle.std.specs.Option.{option_to_list};
ghost use Rattle.verilog_ast.specs.Views.{port_of, ports_of};
ghost use Rattle.gen_unroll.specs.Declarations.{port_name};
ghost use Rattle.gen_unroll.specs.Numbers as n;
ghost use Rattle.gen_unroll.specs.NumberingViews.{numbered_in, IsNumbered};
ghost use Rattle.gen_unroll.specs.Signals.{is_port_named};
ghost use Rattle.gen_unroll.specs.SignalViews.{signal_of};
ghost use Rattle.gen_unroll.specs.TableViews.{signals_of, IsPlaced};

use crate::adding::{add, no_numbers};
use crate::declaring::is_port;
use crate::named_signal::NamedSignal;
use crate::numbering::Numbering;
use crate::table::Table;
use ls_text::NoMemory;
use std::alloc::Global;
use typed_ir::SignalId;
use verilog_ast::{HeaderPort, Identifier, Ports};

// The first port of this name, if there is one.
fn add_first(
    alloc: Global,
    numbering: &mut Numbering,
    table: &Table,
    name: Identifier,
) -> Result<(), NoMemory>
    requires numbered { IsNumbered numbering.old }
    requires placed { IsPlaced table.now }
    ensures signals { OnOk result (numbered_in numbering.new ≡ numbered_in numbering.old ++ option_to_list (n.first_where (is_port_named name.name.0) (signals_of table.now))) }
    ensures numbered { OnOk result (IsNumbered numbering.new) }
{
    match table.ports.find(name.name.0) {
        Some(place) => add(alloc, numbering, table.signals[place as usize]),
        None => Ok(()),
    }
}

// The first port of a name of the header, where the name has no number yet.
fn add_port(
    alloc: Global,
    numbering: &mut Numbering,
    table: &Table,
    name: Identifier,
) -> Result<(), NoMemory>
    requires numbered { IsNumbered numbering.old }
    requires placed { IsPlaced table.now }
    ensures signals { OnOk result (numbered_in numbering.new ≡ n.with_header_port (signals_of table.now) name (numbered_in numbering.old)) }
    ensures numbered { OnOk result (IsNumbered numbering.new) }
{
    match numbering.names.find(name.name.0) {
        Some(_) => Ok(()),
        None => add_first(alloc, numbering, table, name),
    }
}

// The ports of a header that lists their names.
fn add_listed(
    alloc: Global,
    numbering: &mut Numbering,
    table: &Table,
    names: &[Identifier],
) -> Result<(), NoMemory>
    requires numbered { IsNumbered numbering.old }
    requires placed { IsPlaced table.now }
    ensures signals { OnOk result (numbered_in numbering.new ≡ n.ports_onto names.now (signals_of table.now) (numbered_in numbering.old)) }
    ensures numbered { OnOk result (IsNumbered numbering.new) }
{
    for name in names {
        add_port(alloc, numbering, table, *name)?;
    }
    Ok(())
}

/// The name of a port of a header.
pub fn port_name(port: &HeaderPort) -> Identifier
    ensures { result ≡ port_name (port_of port.now) }
{
    match port {
        HeaderPort::Input(_, _, _, name) => *name,
        HeaderPort::Output(_, _, _, variable) | HeaderPort::Next(variable) => variable.name,
    }
}

// The ports of a header that declares them.
fn add_declared(
    alloc: Global,
    numbering: &mut Numbering,
    table: &Table,
    ports: &[HeaderPort],
) -> Result<(), NoMemory>
    requires numbered { IsNumbered numbering.old }
    requires placed { IsPlaced table.now }
    ensures signals { OnOk result (numbered_in numbering.new ≡ n.ports_onto (map port_name (map port_of ports.now)) (signals_of table.now) (numbered_in numbering.old)) }
    ensures numbered { OnOk result (IsNumbered numbering.new) }
{
    for port in ports {
        add_port(alloc, numbering, table, port_name(port))?;
    }
    Ok(())
}

// The ports of a header, in its order.
fn add_header(
    alloc: Global,
    numbering: &mut Numbering,
    table: &Table,
    ports: &Ports,
) -> Result<(), NoMemory>
    requires numbered { IsNumbered numbering.old }
    requires placed { IsPlaced table.now }
    ensures signals { OnOk result (numbered_in numbering.new ≡ n.ports_onto (n.header_names (ports_of ports.now)) (signals_of table.now) (numbered_in numbering.old)) }
    ensures numbered { OnOk result (IsNumbered numbering.new) }
{
    match ports {
        Ports::Nothing => Ok(()),
        Ports::Names(names) => add_listed(alloc, numbering, table, names.as_slice()),
        Ports::Declarations(ports) => add_declared(alloc, numbering, table, ports.as_slice()),
    }
}

// A signal that is no port.
fn add_other(alloc: Global, numbering: &mut Numbering, signal: &NamedSignal) -> Result<(), NoMemory>
    requires { IsNumbered numbering.old }
    ensures signals { OnOk result (numbered_in numbering.new ≡ numbered_in numbering.old ++ filter n.is_no_port (signal_of signal.now ∷ [])) }
    ensures numbered { OnOk result (IsNumbered numbering.new) }
{
    if is_port(signal) {
        Ok(())
    } else {
        add(alloc, numbering, *signal)
    }
}

// What is no port, in the order of the declarations.
fn add_others(
    alloc: Global,
    numbering: &mut Numbering,
    signals: &[NamedSignal],
) -> Result<(), NoMemory>
    requires { IsNumbered numbering.old }
    ensures signals { OnOk result (numbered_in numbering.new ≡ numbered_in numbering.old ++ filter n.is_no_port (map signal_of signals.now)) }
    ensures numbered { OnOk result (IsNumbered numbering.new) }
{
    for signal in signals {
        add_other(alloc, numbering, signal)?;
    }
    Ok(())
}

/// The signals of a table in the order of their numbers.
pub fn number_all(alloc: Global, table: &Table, ports: &Ports) -> Result<Numbering, NoMemory>
    requires { IsPlaced table.now }
    ensures signals { IfOk result (λ x. numbered_in x ≡ n.numbered (n.header_names (ports_of ports.now)) (signals_of table.now)) }
    ensures numbered { IfOk result (λ x. IsNumbered x) }
{
    let mut numbering = no_numbers(alloc);
    add_header(alloc, &mut numbering, table, ports)?;
    add_others(alloc, &mut numbering, &table.signals)?;
    Ok(numbering)
}

// A number, if there is one.
fn push_any(declared: &mut Vec<SignalId>, found: Option<u32>) -> Result<(), NoMemory>
    ensures { OnOk result (declared.new.items ≡ declared.old.items ++ option_to_list found) }
{
    if let Some(number) = found {
        declared.push(SignalId(number))?;
    }
    Ok(())
}

/// The numbers of the signals in the order of their declarations, of which there are so many.
pub fn in_order(
    alloc: Global,
    numbering: &Numbering,
    count: usize,
) -> Result<Vec<SignalId>, NoMemory>
    requires { IsNumbered numbering.now }
    ensures { IfOk result (λ ks. ks.items ≡ n.numbers_from 0 count (numbered_in numbering.now)) }
{
    let mut declared = Vec::new(alloc);
    for k in 0..count {
        let found = numbering.orders.find(k as u64);
        push_any(&mut declared, found)?;
    }
    Ok(declared)
}
