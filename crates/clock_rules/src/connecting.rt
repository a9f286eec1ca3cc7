// Connections of ports, by name and by order.
ghost use Rattle.std.specs.Prelude.{◌≡◌, ◌∷◌, [], map};
ghost use Rattle.std.specs.Option.{option_map};
ghost use Rattle.verilog_ast.specs.Views.{expression_of, by_name_of, by_order_of, connections_of};
ghost use Rattle.width_rules.specs.Faults.{IsFirst};
ghost use Rattle.ls_text.specs.Answers.{Answers, Leads};
ghost use Rattle.clock_rules.specs.Connections as k;

use ls_text::Refusal;
use module_names::NameOrder;
use std::alloc::Global;
use verilog_ast::{Connections, Identifier, NamedConnection, OrderedConnection};
use width_rules::{refused, refused_at, refused_of};

// A connection by name: 27 where no port has the name, and 28 where it is connected already.
fn named(
    alloc: Global,
    ports: &NameOrder,
    before: &mut NameOrder,
    name: Identifier,
) -> Result<(), Refusal>
    ensures { Leads result before.new (k.name_more ports.now before.old name) }
{
    if !ports.has(name.name) {
        return Err(refused_at(alloc, 27, name));
    }
    if before.has(name.name) {
        return Err(refused_at(alloc, 28, name));
    }
    before.push(name)?;
    Ok(())
}

fn all_named(alloc: Global, ports: &NameOrder, all: &[NamedConnection]) -> Result<(), Refusal>
    ensures { Answers result (λ x. x) (k.all_named ports.now [] (map by_name_of all.now)) }
{
    let mut before = NameOrder::new(alloc);
    for one in all {
        named(alloc, ports, &mut before, one.name)?;
    }
    Ok(())
}

// One connection by order too many: 27 at its first token, or where it is empty at the token behind it.
fn too_many(alloc: Global, one: &OrderedConnection) -> Refusal
    ensures { IsFirst (k.too_many one.now.at (option_map expression_of one.now.value) ∷ []) result }
{
    match &one.value {
        None => refused(alloc, 27, one.at, None),
        Some(e) => refused_of(alloc, 27, e.get()),
    }
}

// Connections by order: 27 at one too many.
fn all_ordered(
    alloc: Global,
    ports: &[Identifier],
    all: &[OrderedConnection],
) -> Result<(), Refusal>
    ensures { Answers result (λ x. x) (k.all_ordered ports.now (map by_order_of all.now)) }
{
    let mut left = ports;
    for one in all {
        match left.split_first() {
            Some((_, rest)) => left = rest,
            None => return Err(too_many(alloc, one)),
        }
    }
    Ok(())
}

// Whether it is a single empty place, which is no connection.
fn is_empty_place(all: &[OrderedConnection]) -> bool
    ensures { result ≡ k.is_empty_place (map by_order_of all.now) }
{
    match all.split_first() {
        Some((first, rest)) => rest.is_empty() && first.value.is_none(),
        None => false,
    }
}

/// The connections of an instance of a module with these ports (IEEE Std 1364-2005, 12.3.5 and 12.3.6).
///
/// Faults, connection by connection: 27 NoPort at a connection to no port, or one too many; 28 PortTwice at one to a port that is connected
/// already. Else want of memory.
#[tactic(auto, unfolding(crate::specs::Connections::connected))]
pub fn connected(alloc: Global, ports: &NameOrder, connections: &Connections) -> Result<(), Refusal>
    ensures { Answers result (λ x. x) (k.connected ports.now (connections_of connections.now)) }
{
    match connections {
        Connections::Named(all) => all_named(alloc, ports, all.as_slice()),
        Connections::Ordered(all) => {
            if is_empty_place(all.as_slice()) {
                Ok(())
            } else {
                all_ordered(alloc, ports.as_slice(), all.as_slice())
            }
        }
    }
}
