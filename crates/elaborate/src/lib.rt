// Modules to the tree of instances of a design, or its first fault.
//
// `designing` has the modules by their names and finds the top, `elaborating` goes from the top down to its instances (`standing`), depth first and
// within `limits`, and keeps what it has so far (`growing`). `jobs` has each module visited once under the same overrides and with the same clock
// (`job`, found by its `visit_key`). `visiting` is such a visit, and `visited` what it finds.
//
// `checks` goes over the steps of the unrolled module with the names in reach, and with what is known so far (`checking`). `header` and `body`
// declare names (`declaring`): each in its block (`declared_name`) is a `declaration` of some kind (`declaration_kind`), and `tables` finds them
// among the `declarations`. Instances within the module (`child_instance`) get their overrides (`overriding`; `giving` finds the values that are
// given by name, `given_parameters`) and their connections (`clock_rules`). `clocking` goes over the steps once more for the clock: where it may
// stand, and which port of an instance it reaches, is of `clock_rules`. `clocks_and_ports` is what a visit finds behind its checks.
//
// `tree` is what the designs above see of a design. `design_laws` says that names may change: in an unrolled module, in what its header says, and in
// the instances of a design.
#![tactic(auto)]

mod body;
mod checking;
mod checks;
mod child_instance;
mod clocking;
mod clocks_and_ports;
mod declaration;
mod declaration_kind;
mod declarations;
mod declared_name;
mod declaring;
mod design_laws;
mod designing;
mod elaborating;
mod given_parameters;
mod giving;
mod growing;
mod header;
mod job;
mod jobs;
mod limits;
mod overriding;
mod standing;
mod tables;
mod tree;
mod visit_key;
mod visited;
mod visiting;

pub use design_laws::{
    names_may_change_in_designs, names_may_change_in_headers, names_may_change_in_modules,
};
pub use limits::Limits;
pub use tree::{elaborate, tree_within};
