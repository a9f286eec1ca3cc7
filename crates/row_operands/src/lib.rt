// What rows of sizes and of statements share: the names that they speak of, and how they show a value and a fault.
//
// `nets` declares nets and constants in a scope, with the values of the nets; `shown` appends a value, or the fault of a refusal.
#![tactic(auto)]

mod nets;
mod shown;

pub use nets::operands;
pub use shown::{push_refusal, push_value};
