// Declarations of ports, nets and variables.
ghost use Rattle.std.specs.Prelude.{◌≡◌, ◌++◌, ◌∷◌, [], length, IfOk, OnOk};
ghost use Rattle.std.specs.Option.{option_map};
ghost use Rattle.gen_unroll.specs.Views.{bit_range_of, here_of};
ghost use Rattle.gen_unroll.specs.Numbers.{place_where};
ghost use Rattle.gen_unroll.specs.SignalViews.{signal_of};
ghost use Rattle.gen_unroll.specs.Signals as s;
ghost use Rattle.gen_unroll.specs.TableViews.{signals_of, IsPlaced};

use crate::bit_range::BitRange;
use crate::block_id::BlockId;
use crate::first_places::FirstPlaces;
use crate::named_signal::NamedSignal;
use crate::table::Table;
use ls_text::NoMemory;
use std::alloc::Global;
use typed_ir::SignalKind;
use verilog_ast::{Identifier, PortNet};

/// No declaration.
pub fn no_signals(alloc: Global) -> Table
    ensures signals { signals_of result ≡ [] }
    ensures placed { IsPlaced result }
{
    Table {
        signals: Vec::new(alloc),
        ports: FirstPlaces::new(alloc),
    }
}

/// What a net or variable is that is declared by this word.
pub fn kind_of_net(net: PortNet) -> SignalKind
    ensures { result ≡ s.kind_of_net net }
{
    match net {
        PortNet::Nothing | PortNet::Wire => SignalKind::Net,
        PortNet::Reg => SignalKind::Variable,
    }
}

/// Whether it is a port of the module itself.
pub fn is_port(signal: &NamedSignal) -> bool
    ensures { result ≡ s.is_port (signal_of signal.now) }
{
    match signal.block {
        None => signal.port,
        Some(_) => false,
    }
}

// How many signals there are. 2^32 of them are want of memory.
fn next_order(table: &Table) -> Result<u32, NoMemory>
    ensures { IfOk result (λ n. n ≡ length (signals_of table.now)) }
{
    let count = table.signals.len();
    if count >= u32::MAX as usize {
        return Err(NoMemory);
    }
    Ok(count as u32)
}

// One signal more, with the place that is its order.
fn push(table: &mut Table, signal: NamedSignal) -> Result<(), NoMemory>
    requires placed { IsPlaced table.old }
    requires last { signal.order ≡ length (signals_of table.old) }
    ensures signals { OnOk result (signals_of table.new ≡ signals_of table.old ++ signal_of signal ∷ []) }
    ensures placed { OnOk result (IsPlaced table.new) }
{
    table.signals.push(signal)?;
    if is_port(&signal) {
        table.ports.note(signal.name.name.0, signal.order)?;
    }
    Ok(())
}

/// A port in this block, or in the module itself.
pub fn declare_port(
    table: &mut Table,
    here: Option<BlockId>,
    kind: SignalKind,
    net: PortNet,
    range: Option<BitRange>,
    signed: bool,
    name: Identifier,
) -> Result<(), NoMemory>
    requires { IsPlaced table.old }
    ensures signals { OnOk result (signals_of table.new ≡ s.with_port (here_of here) kind net (option_map bit_range_of range) signed name (signals_of table.old)) }
    ensures placed { OnOk result (IsPlaced table.new) }
{
    let order = next_order(table)?;
    push(
        table,
        NamedSignal {
            block: here,
            name,
            kind,
            range,
            signed,
            port: true,
            net,
            order,
        },
    )
}

/// A port of a header with the declaration of the port before.
pub fn declare_next(
    table: &mut Table,
    here: Option<BlockId>,
    name: Identifier,
) -> Result<(), NoMemory>
    requires { IsPlaced table.old }
    ensures signals { OnOk result (signals_of table.new ≡ s.with_next (s.last_of (signals_of table.old)) (here_of here) name (signals_of table.old)) }
    ensures placed { OnOk result (IsPlaced table.new) }
{
    match last_of(table) {
        Some(port) => declare_port(
            table,
            here,
            port.kind,
            port.net,
            port.range,
            port.signed,
            name,
        ),
        None => declare_port(
            table,
            here,
            SignalKind::Input,
            PortNet::Wire,
            None,
            false,
            name,
        ),
    }
}

// What was declared last.
fn last_of(table: &Table) -> Option<NamedSignal>
    ensures { option_map signal_of result ≡ s.last_of (signals_of table.now) }
{
    match table.signals.last() {
        Some(signal) => Some(*signal),
        None => None,
    }
}

// The place of the port that a declaration completes.
fn port_at(table: &Table, here: Option<BlockId>, name: Identifier) -> Option<u32>
    requires { IsPlaced table.now }
    ensures { result ≡ place_where (s.completes (here_of here) name.name.0) (signals_of table.now) }
{
    match here {
        None => table.ports.find(name.name.0),
        Some(_) => None,
    }
}

fn completed_kind(net: PortNet, kind: SignalKind) -> SignalKind
    ensures { result ≡ s.completed_kind net kind }
{
    match kind {
        SignalKind::Input => SignalKind::Input,
        SignalKind::Net | SignalKind::Variable => kind_of_net(net),
    }
}

// A port, completed.
fn completed(net: PortNet, signal: NamedSignal) -> NamedSignal
    ensures { signal_of result ≡ s.completed net (signal_of signal) }
{
    NamedSignal {
        block: signal.block,
        name: signal.name,
        kind: completed_kind(net, signal.kind),
        range: signal.range,
        signed: signal.signed,
        port: signal.port,
        net,
        order: signal.order,
    }
}

/// A net or variable in this block, or in the module itself; there it may complete a port.
pub fn declare_net(
    table: &mut Table,
    here: Option<BlockId>,
    net: PortNet,
    range: Option<BitRange>,
    signed: bool,
    name: Identifier,
) -> Result<(), NoMemory>
    requires { IsPlaced table.old }
    ensures signals { OnOk result (signals_of table.new ≡ s.with_net (here_of here) net (option_map bit_range_of range) signed name (signals_of table.old)) }
    ensures placed { OnOk result (IsPlaced table.new) }
{
    match port_at(table, here, name) {
        Some(place) => {
            let port = completed(net, table.signals[place as usize]);
            table.signals[place as usize] = port;
            Ok(())
        }
        None => {
            let order = next_order(table)?;
            let kind = kind_of_net(net);
            push(
                table,
                NamedSignal {
                    block: here,
                    name,
                    kind,
                    range,
                    signed,
                    port: false,
                    net,
                    order,
                },
            )
        }
    }
}
