// A module as it is used to its unit, or to the first fault in it.
//
// `building` is the call. It unrolls the module under the values of its parameters, gives its signals numbers (`gen_unroll`),
// finds which variables combinational blocks write (`settling`), and goes over the steps once more (`walking`, by a `unit_walk`), in which
// `stepping` sizes each. `placing` puts the items together with the signals and what these have at the beginning (`unit_lists`, `copying`),
// and `splitting` makes the parts of the unit, when `driver_rules` finds no fault.
//
// Connections of instances: `connecting` lists those of an instance, each with its port (`connection`), which `finding` finds by the hash of its name
// (`port_names`). `sizing` makes the item of one: an input is an assignment to its port, an output one from it to the target that stands there as an
// expression (`driving`, with `shaping`, sizes that: `sized_output`). `port_order` puts the items of an instance in the order of its ports, `checking`
// finds what no output may drive, and `instancing` does both for all instances of an item. `connection_laws` says where the nodes of connections stand.
#![tactic(auto, using(width_rules::proofs::Firsts::earlier, width_rules::proofs::Firsts::later, width_rules::proofs::Firsts::neither))]

mod building;
mod checking;
mod connecting;
mod connection;
mod connection_laws;
mod copying;
mod driving;
mod finding;
mod instancing;
mod placing;
mod port_names;
mod port_order;
mod settling;
mod shaping;
mod sized_output;
mod sizing;
mod splitting;
mod stepping;
mod unit_lists;
mod unit_walk;
mod walking;

pub use building::build;
pub use connection_laws::connections_stand;
