// Combinational blocks bit by bit: which reads come before the block has written what they read, and which signals it doesn't write
// on every path.
//
// `targets` lists what a block may write. `bit_table` has a mask for each signal, `learning` adds bits to one and lists the new ones, so that a
// branch can be taken back. `reading` flags the reads of an expression, `walking` goes through a statement path by path, and `paths` is the call,
// over two tables (`path_tables`) that are blank between calls. `laws` says what the absence of both means, and of which blocks this can be asked.
#![tactic(auto)]

mod bit_table;
mod laws;
mod learning;
mod path_tables;
mod paths;
mod reading;
mod targets;
mod walking;

pub use bit_table::BitTable;
pub use laws::{legal_blocks, whole_blocks};
pub use path_tables::PathTables;
pub use paths::{Paths, paths_of};
pub use targets::targets_in;
