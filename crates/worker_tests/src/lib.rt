// Tests of workers in threads beside a session, in a crate of their own, since a crate with tests is proved twice.
//
// `asking`, `reloading` and `settling` are work of a session. `watched` is a machine that does something as a run begins (`watch`): it meets another
// thread, wants memory, or has a gate of `test_gates` let its tickets go. `thread_tests` hands such work to a scope of workers, over books of a tally
// or of a watched machine, and the history that is left to `replay`, which takes it entry by entry and keeps its tickets (`drawn`).
//
// Two settle a book without workers (`tally_book`): `turn_tests` through a turn, `settle_tests` the book alone.
#![tactic(auto)]

#[cfg(test)]
mod asking;
#[cfg(test)]
mod drawn;
#[cfg(test)]
mod reloading;
#[cfg(test)]
mod replay;
#[cfg(test)]
mod settle_tests;
#[cfg(test)]
mod settling;
#[cfg(test)]
mod tally_book;
#[cfg(test)]
mod thread_tests;
#[cfg(test)]
mod turn_tests;
#[cfg(test)]
mod watch;
#[cfg(test)]
mod watched;
