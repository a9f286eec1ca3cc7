// The jobs of a tree of instances: of each instance its module as it is used there.
//
// `shapes` collects of each instance the shapes of those that stand in it, and `modules` puts the modules by their names into a
// `module_table`. `block_names` walks over the steps of an unrolled module and says what the nets and variables within its blocks are
// called. `preparing` makes of each instance an `unnamed_job`, which has these names as texts, and `naming` gives them their numbers.
// `jobs` does one after the other.
#![tactic(auto)]

mod block_names;
mod jobs;
mod module_table;
mod modules;
mod naming;
mod preparing;
mod shapes;
mod unnamed_job;

pub use jobs::jobs_of;
pub use shapes::shapes_within;
