// Tests of designs, in a crate of their own, since a crate with tests is proved twice: copies and checked tables of units (`unit_tests`),
// orders and loops (`order_tests`; of several instances, `instance_order_tests`, and of several of one unit, `unit_order_tests`), where the words of
// a design stand (`place_tests`), and one assignment walked over as steps (`index_order_tests`). What they expect was worked out by hand.
#![tactic(auto)]

#[cfg(test)]
mod index_order_tests;
#[cfg(test)]
mod instance_order_tests;
#[cfg(test)]
mod order_tests;
#[cfg(test)]
mod place_tests;
#[cfg(test)]
mod unit_order_tests;
#[cfg(test)]
mod unit_tests;
