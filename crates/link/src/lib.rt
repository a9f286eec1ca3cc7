// The units of a tree of instances to the one flat design that they make, in order; or the fault: too many nodes, or a loop of them.
//
// `kids` finds the first signals of the instances within each instance, `copying` copies what a unit gives to where it stands, and `flattening` does
// so for each instance (`copies`). `naming` says what a node is called, by its first target (`targeting`, which searches a block for the target of a
// number, `search`), and `linking` orders the nodes or names the loop. `laws` says that each table of instances is that of one tree, and that each
// node of a loop has a target.
#![tactic(auto)]

mod copies;
mod copying;
mod flattening;
mod kids;
mod laws;
mod linking;
mod naming;
mod search;
mod targeting;

pub use laws::{loops_are_named, trees_of_tables};
pub use linking::{NODE_LIMIT, link, link_within};
