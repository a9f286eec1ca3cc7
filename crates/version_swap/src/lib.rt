// The version of a design that an edit makes, from the texts to a design that can be run.
//
// `texts` are what is kept of a version, with `file_list`; an `Edit` changes them (`files`). `tokens` and `modules` read the files, `finding` has the
// instances of the design and the job of each (`found`), and `keys` the keys of these, with the first of each. `versions` has their units made where
// a registry doesn't hold them, and `units` links these to a design (`version`). `operations` has the operations on registers between two designs
// checked. `planning` does one after the other, and its answer is `planned`, with `key_list`.
//
// `laws` says that a version doesn't hang on the table of names with which it is read. It stands on laws of the definitions below: that two jobs of one
// key text have one unit (`key_laws`), in which places change nothing (`place_laws`, over plain trees without their places) and names only themselves
// (`rename_laws`); that a visited module is unrolled again to the steps of its visit (`job_laws`); that what is linked of the units is the flat design
// (`flat_laws`, and `name_laws` for other names); and that a registry holds the units of the keys (`held_laws`).
#![tactic(auto)]

mod file_list;
mod files;
mod finding;
mod flat_laws;
mod found;
mod held_laws;
mod job_laws;
mod key_laws;
mod key_list;
mod keys;
mod laws;
mod modules;
mod name_laws;
mod operations;
mod place_laws;
mod planned;
mod planning;
mod rename_laws;
mod texts;
mod tokens;
mod units;
mod version;
mod versions;

pub use file_list::FileList;
pub use files::files_behind;
pub use flat_laws::{
    copies_are_those_of_the_design, linked_units_are_the_flat_design,
    nodes_are_told_by_their_own_targets,
};
pub use held_laws::{
    held_keys_have_no_fault, held_units_are_those_of_their_jobs,
    held_units_link_to_the_flat_design, registries_stay_held,
};
pub use job_laws::{
    ports_come_first, units_stand_in_their_tree, visited_modules_may_be_unrolled_again,
};
pub use key_laws::{
    elaborated_instances_are_told, jobs_are_under, keys_tell_units, one_spelling_is_one_module,
    parsed_modules_are_spelled,
};
pub use key_list::KeyList;
pub use laws::plans_are_one;
pub use name_laws::names_may_change_in_flat_designs;
pub use operations::operations_of;
pub use place_laws::places_change_nothing;
pub use planned::Planned;
pub use planning::plan;
pub use rename_laws::{
    names_may_change_in_items, names_may_change_in_jobs, names_may_change_in_signals,
    names_may_change_in_units,
};
pub use texts::Texts;
pub use tokens::file_tokens;
