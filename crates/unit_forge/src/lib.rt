// Units of jobs, made on several threads.
//
// `forging` is the call, `make` of a `RayonForge` (`rayon_forge`), which keeps the keys whose jobs it made. It takes the room for the new keys
// first, as copies that share their jobs. `building` makes the unit of each key on the threads of the runtime, each by itself, and then
// goes over the results in the order of the keys: the units, or the first refusal. Only behind units do the keys join those that were made.
#![tactic(auto)]

mod building;
mod forging;
mod rayon_forge;

pub use rayon_forge::RayonForge;
