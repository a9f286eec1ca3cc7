// Tests of a session, turn by turn, with limits that no script reaches in a test's time, without workers and beside two, in a crate of their own, since a
// crate with tests is proved twice.
//
// `playing` has a session carry out a script in turns of a book (`played`), and `scripted` lends that to a scope with workers (`lending`,
// `lent_script`), with the history that is left (`ran`); `limit_tests` are the tests, over a `held_source` where a worker holds a ticket.
#![tactic(auto)]

#[cfg(test)]
mod held_source;
#[cfg(test)]
mod lending;
#[cfg(test)]
mod lent_script;
#[cfg(test)]
mod limit_tests;
#[cfg(test)]
mod played;
#[cfg(test)]
mod playing;
#[cfg(test)]
mod ran;
#[cfg(test)]
mod scripted;
