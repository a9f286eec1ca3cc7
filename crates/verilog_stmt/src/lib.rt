// Statements of a Verilog text and their targets, read exactly as the grammar says.
//
// `statements` reads a statement from a cursor's tokens, by one function a nonterminal; `targets` reads what stands left of an
// assignment's sign. Each ensures what the grammar machine does, and one phrase of the relation `Spells`; `laws` says where their
// parts stand.
#![tactic(auto)]

mod laws;
mod statements;
mod targets;

pub use laws::statements_have_places;
pub use statements::statement;
pub use targets::target;
