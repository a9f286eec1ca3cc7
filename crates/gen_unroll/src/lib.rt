// A module with its loops and branches unrolled in place, and its nets and variables by numbers of their own.
//
// `unrolling` walks the tree of a module (`walk`) and answers `unrolled`: `step`s in the order of the text, which refer to the tree, and the table of
// the `block`s that were opened (`block_id`), up to the first fault. It goes by the names in reach: `naming` declares those of a block where it is
// opened, `parameters` gives parameters their values by what their declaration says (`parameter_type`; `parameter_sort` tells whether one can be
// overridden), and `looping` counts the turns of a loop (`turn`) before its first block. `ranges` says how many bits a range has (`bit_range`), and
// `constants` has constant expressions. `speaking` says what a name within a block is called, and `telling` adds a step to what was told. `reaching`
// follows the steps with the names in reach (`reach`), for whoever checks them. `overriding` has the overrides under which a module unrolls to given
// values.
//
// Numbers: `stepping` goes over the steps and has a `table` of `named_signal`s in the order of the declarations: `declaring` puts one there, or
// completes the port that has its name, and `name_ranges` those of one declaration. `heading` gives them their numbers, the ports of the header
// first, one by one (`adding`, in `numbering`), and `making` puts all together, as `signal_table`; `finding` has the first place of each key, by its
// hash (`first_places`). `unit_reaching` follows the steps with the names in reach (`unit_reach`), in which `hiding` has each net and variable stand
// for nothing and then `entering` declares the signals (`block_signal`), and `unit_lists` makes the lists that a unit has; `name_laws` says what it
// relies on of the numbers.
#![tactic(auto)]

mod adding;
mod bit_range;
mod block;
mod block_id;
mod block_signal;
mod constants;
mod declaring;
mod entering;
mod finding;
mod first_places;
mod heading;
mod hiding;
mod looping;
mod making;
mod name_laws;
mod name_ranges;
mod named_signal;
mod naming;
mod numbering;
mod overriding;
mod parameter_sort;
mod parameter_type;
mod parameters;
mod ranges;
mod reach;
mod reaching;
mod signal_table;
mod speaking;
mod step;
mod stepping;
mod table;
mod telling;
mod turn;
mod unit_lists;
mod unit_reach;
mod unit_reaching;
mod unrolled;
mod unrolling;
mod walk;

pub use bit_range::BitRange;
pub use block::Block;
pub use block_id::BlockId;
pub use constants::evaluated;
pub use making::{module_signals, number_of_name};
pub use name_laws::{names_fit, numbers_are_sound};
pub use named_signal::NamedSignal;
pub use overriding::overrides_of;
pub use parameter_sort::ParameterSort;
pub use ranges::range_value;
pub use reach::Reach;
pub use signal_table::ModuleSignals;
pub use speaking::full_text;
pub use step::Step;
pub use turn::Turn;
pub use unit_lists::{data_inputs, declarations, registers, unit_signals};
pub use unit_reach::UnitReach;
pub use unrolled::Unrolled;
pub use unrolling::{TURN_LIMIT, unroll, unroll_within};
