// Statements, continuous assignments and all items of a module but instances, with their expressions sized and their faults.
//
// `targeting` walks a target and lays its parts (`sized_target`); `assigning` has continuous assignments (`drive`). `statements` walks a statement
// once for its expressions, with labels of cases (`open_label`, those of an item `open_labels`) in `labelling`, which `closing` closes when all of a
// case (`open_case`, and each item `open_arm`) are known; `checking` walks it for its targets (`target_kinds`) and defaults, and `blocks` does both
// in turn; `laws` says that other names change nothing.
//
// Items: `finding` lists the names that a declaration gives values (`declared_value`), with what takes them (`value_kind`). `declaring` makes their
// items, and `initials` what variables have at the beginning (`initial_value`, by the `declared_bits` of a name); `driving` has continuous
// assignments, and `blocking` `always` blocks, with their places. `sizing` adds what one item makes to an `item_list`. `value_laws` says that a net
// is driven without a fault where its declaration has none, and `size_laws` that what is sized without a fault fits the signals of its scope.
#![tactic(auto, using(width_rules::proofs::Firsts::earlier, width_rules::proofs::Firsts::later, width_rules::proofs::Firsts::neither))]

mod assigning;
mod blocking;
mod blocks;
mod checking;
mod closing;
mod declared_bits;
mod declared_value;
mod declaring;
mod drive;
mod driving;
mod finding;
mod initial_value;
mod initials;
mod item_list;
mod labelling;
mod laws;
mod open_arm;
mod open_case;
mod open_label;
mod open_labels;
mod size_laws;
mod sized_target;
mod sizing;
mod statements;
mod target_kinds;
mod targeting;
mod value_kind;
mod value_laws;

pub use assigning::{assigned, size_assign};
pub use blocks::size_stmt;
pub use drive::Drive;
pub use initial_value::InitialValue;
pub use item_list::ItemList;
pub use laws::names_may_change;
pub use size_laws::{signals_may_be_renumbered, sized_text_fits, trees_are_written};
pub use sizing::{size_outputs, size_plain, size_port};
pub use targeting::{lay, size_target};
pub use value_laws::values_are_drives;
