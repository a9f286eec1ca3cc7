// Steps over words: what a step does, and the walk over a list of them.
//
// `op` and `step` are the data. `wide` and `short` make values of up to 128 and up to 64 bits, `making` chooses between their operators,
// `walking` takes step after step, and `soundness` tests once that a list may be walked over.
#![tactic(auto)]

mod making;
mod op;
mod short;
mod soundness;
mod step;
mod walking;
mod wide;

pub use op::Op;
pub use soundness::{are_sound, is_long, writes};
pub use step::Step;
pub use walking::walk;
