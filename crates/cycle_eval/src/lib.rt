// The evaluator: cycles of a linked design, in place over words.
//
// `making` has a design's registers laid out and its steps made, `design` holds both, `inputs` puts what a row gives among the words, by the inputs'
// names, and tells their widths, `cycle` takes the steps of a cycle, `run` goes from one state (`state`) to another, stretch by stretch of equal
// rows, and `carrying` has the beginning state and hands registers of an older design over (crate `reg_transform`). `parts` are what a table of
// registers shows and what carrying asks of them, and `as_machine` is the design as a machine.
#![tactic(auto)]

mod as_machine;
mod carrying;
mod cycle;
mod design;
mod inputs;
mod making;
mod parts;
mod run;
mod state;

pub use design::Design;
