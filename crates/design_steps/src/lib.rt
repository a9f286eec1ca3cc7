// A linked design as a flat list of steps over words.
//
// `layout` says where signals, next values and constants (`constants`) stand. `expressions` lays expressions out by the operators of `operators`,
// step behind step (`putting`), and tells where a value stands (`operand`); `parts` and `drives` lay out what is assigned, now or later (`home`);
// `statements` lays statements out, with `conditions` for that of an `if` and `matching` for the items of a case, and `nodes` nodes, all from the
// last one to the first, by steps that are put in front of others (`fronting`). `step_laws` says what the steps do.
//
// `design_layout` says where a design's signals, their next values and its constants stand; `naming` finds the wires that are only names of
// other signals, and `sharing` lets them stand where these do, so that their nodes take no step; `pooling` and `constant_walk` gather
// the constants, and `laws` says that nodes and blocks are laid out by it. `gathering` says where words are moved to, so that registers stand
// side by side, and `moving` moves steps. `making` makes a `program` of a linked design, with the words that it begins with (`words`), and
// `cycling` runs it cycle by cycle: the wires settle, the clocked blocks write next values, and these are copied over (`carrying`). `signal_words`
// reads and puts the values of signals.
#![tactic(auto)]

mod carrying;
mod conditions;
mod constant_walk;
mod constants;
mod cycling;
mod design_layout;
mod drives;
mod expressions;
mod fronting;
mod gathering;
mod home;
mod laws;
mod layout;
mod making;
mod matching;
mod moving;
mod naming;
mod nodes;
mod operand;
mod operators;
mod parts;
mod pooling;
mod program;
mod putting;
mod sharing;
mod signal_words;
mod statements;
mod step_laws;
mod words;

pub use constant_walk::{pool_all, pool_nodes, pool_statement};
pub use constants::Constants;
pub use design_layout::{free_from, layout_of};
pub use gathering::places_of;
pub use home::Home;
pub use laws::layouts_are_right;
pub use layout::Layout;
pub use making::program_of;
pub use pooling::{pool_form, pool_value};
pub use program::Program;
pub use statements::lay_statement;
pub use step_laws::{
    expressions_are_right, nodes_are_right, statements_are_right, steps_are_sized,
};
pub use words::{beginning_of, greatest_of};
