// The script of a load: a design of so many stages, run, edited in one module and settled.
//
// `files` adds the files of a stage and of the top to a text, `script` puts them between the commands of a load (`make`), and `laws` says how long a
// script is at most.
#![tactic(auto)]

mod files;
pub mod laws;
mod script;

pub use script::make;
