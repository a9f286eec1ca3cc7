// Items of connections in the order of the ports.
ghost use Rattle.std.specs.Prelude.{◌≡◌, ◌++◌, [], None, map, OnOk, IfOk, IfErr};
ghost use Rattle.std.specs.Option.{option_map};
ghost use Rattle.typed_ir.specs.Items.{item_of};
ghost use Rattle.typed_ir.specs.declared.port_shape.PortShape.{PortShape as Port};
ghost use Rattle.width_rules.specs.Entries.{scope_of};
ghost use Rattle.width_rules.specs.Faults.{IsFirst};
ghost use Rattle.unit_build.specs.Connections.{all_connection_faults};
ghost use Rattle.unit_build.specs.ConnectionNodes.{connection_item};
ghost use Rattle.unit_build.specs.Instances.{port_items};
ghost use Rattle.unit_build.specs.Slots.{first_or, put_at, put_all, listed};
ghost use Rattle.unit_build.specs.Views.{connected_of};

use crate::connection::Connection;
use crate::sizing::size_connection;
use ls_text::{NoMemory, Refusal};
use std::alloc::Global;
use typed_ir::{ChildId, PortShape, TypedItem};
use width_rules::Scope;

// A place for the item of each port, of which none is taken.
fn no_items(alloc: Global, ports: &[PortShape]) -> Result<Vec<Option<TypedItem>>, NoMemory>
    ensures { IfOk result (λ xs. map (option_map item_of) xs.items ≡ map (λ (p : Port). None) ports.now) }
{
    let mut places = Vec::with_capacity(alloc, ports.len())?;
    for _ in ports {
        places.push(None)?;
    }
    Ok(places)
}

// Lets an item go.
fn let_go(_item: TypedItem) {}

// Puts an item into a place, unless one stands there.
fn fill(place: &mut Option<TypedItem>, item: TypedItem)
    ensures { option_map item_of place.new ≡ first_or (option_map item_of place.old) (item_of item) }
{
    match place {
        None => *place = Some(item),
        Some(_) => let_go(item),
    }
}

// Puts an item into the place of its port, unless one stands there.
fn put(places: &mut Vec<Option<TypedItem>>, port: usize, item: TypedItem)
    ensures { map (option_map item_of) places.new.items ≡ put_at port 0 (item_of item) (map (option_map item_of) places.old.items) }
{
    if port >= places.len() {
        let_go(item);
        return;
    }
    fill(&mut places[port], item);
}

// Puts the items of connections into the places of their ports.
#[tactic(auto, using(width_rules::proofs::Firsts::earlier, width_rules::proofs::Firsts::later, width_rules::proofs::Firsts::neither, crate::proofs::Listing::sized_ahead, crate::proofs::Listing::sized_fault, crate::proofs::Placed::put_ahead))]
fn put_all(
    alloc: Global,
    scope: &Scope,
    child: ChildId,
    list: &[Connection<'_>],
    places: &mut Vec<Option<TypedItem>>,
) -> Result<(), Refusal>
    ensures faultless { OnOk result (all_connection_faults (scope_of scope.now) (map connected_of list.now) ≡ []) }
    ensures places { OnOk result (map (option_map item_of) places.new.items
        ≡ put_all (connection_item (scope_of scope.now) child) (map connected_of list.now) (map (option_map item_of) places.old.items)) }
    ensures fault { IfErr result (IsFirst (all_connection_faults (scope_of scope.now) (map connected_of list.now))) }
{
    for c in list {
        let item = size_connection(alloc, scope, child, c)?;
        put(places, c.port as usize, item);
    }
    Ok(())
}

// Adds the items that stand in places.
fn add_items(places: Vec<Option<TypedItem>>, items: &mut Vec<TypedItem>) -> Result<(), NoMemory>
    ensures { OnOk result (map item_of items.new.items ≡ map item_of items.old.items ++ listed (map (option_map item_of) places.items)) }
{
    for place in places {
        if let Some(item) = place {
            items.push(item)?;
        }
    }
    Ok(())
}

/// Adds the items of the connections of one child with these ports, port by port, each port's first connection; or the first fault of
/// the connections in the order of the text, or want of memory.
pub fn size_connections(
    alloc: Global,
    scope: &Scope,
    child: ChildId,
    ports: &[PortShape],
    list: &[Connection<'_>],
    items: &mut Vec<TypedItem>,
) -> Result<(), Refusal>
    ensures faultless { OnOk result (all_connection_faults (scope_of scope.now) (map connected_of list.now) ≡ []) }
    ensures items { OnOk result (map item_of items.new.items
        ≡ map item_of items.old.items ++ port_items (scope_of scope.now) child (map connected_of list.now) 0 ports.now) }
    ensures fault { IfErr result (IsFirst (all_connection_faults (scope_of scope.now) (map connected_of list.now))) }
{
    let mut places = no_items(alloc, ports)?;
    put_all(alloc, scope, child, list, &mut places)?;
    add_items(places, items)?;
    Ok(())
}
