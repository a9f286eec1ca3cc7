// What is built for each module as it is used, kept by the text of what it was built from.
//
// A `build_job` is what a unit is built from. `key_texts` writes its text, with the names of parameters that `constant_names` finds in its module,
// and `digests` has the digest of that. The text, the digest and the job are a `key`; `key_equality` says when two are equal, and by what they are
// hashed. A `registry` has units by their keys. `ensuring` is handed keys: copies of those that aren't held go to a `forge`, which makes their units,
// and `adding` puts these behind the others, and copies a registry; `ensured` counts what was built and what was held before. `holding` begins a
// registry, finds a unit and cuts units off.
#![tactic(auto)]

mod adding;
mod build_job;
mod constant_names;
mod digests;
mod ensured;
mod ensuring;
mod forge;
mod holding;
mod key;
mod key_equality;
mod key_texts;
mod registry;

pub use build_job::BuildJob;
pub use digests::{digest, hex_digest};
pub use ensured::Ensured;
pub use forge::Forge;
pub use key::Key;
pub use key_texts::key_text;
pub use registry::Registry;
