// Tests of registers from outside, in a crate of their own, since a crate with tests is proved twice: operations on them (`operation_tests`, each an
// `operation_row` of the tables in `operation_rows`), and what `wave_report` writes, of a state (`table_tests`) and as replies (`reply_tests`). What they
// expect was worked out by hand.
#![tactic(auto)]

#[cfg(test)]
mod operation_row;
#[cfg(test)]
mod operation_rows;
#[cfg(test)]
mod operation_tests;
#[cfg(test)]
mod reply_tests;
#[cfg(test)]
mod table_tests;
