// Tests of designs as machines, in a crate of their own, since a crate with tests is proved twice: inputs by rows (`input_tests`), a counter by
// rows (`counter_tests`), a block with a temporary (`block_tests`), and the steps of a design (`step_tests`), over what `designs` makes. What they
// expect was worked out by hand. Values of registers are rows of `machine_rows`.
#![tactic(auto)]

#[cfg(test)]
mod block_tests;
#[cfg(test)]
mod counter_tests;
#[cfg(test)]
mod designs;
#[cfg(test)]
mod input_tests;
#[cfg(test)]
mod step_tests;
