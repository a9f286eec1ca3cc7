// The turn of a book among threads: one holder at a time has it, and each knows a beginning of its one history.
//
// `one_book` says of the one-place queue and the passes (`sight`) what every step keeps; `begins`, `enters`, `leaves`, `hears` and
// `workers` say what each kind of step tells; `turn` and `holder` are the types that callers have, and `calls` the steps on the queue, which a thread waits for (`waiting`).
#![tactic(auto)]

pub mod begins;
mod calls;
pub mod enters;
pub mod hears;
mod holder;
pub mod leaves;
pub mod one_book;
pub mod sight;
mod turn;
mod waiting;
pub mod workers;

pub use holder::{Holder, SessionPass, WorkerPass};
pub use turn::Turn;
