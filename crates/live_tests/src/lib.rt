// Tests of the whole program beside workers, in a crate of their own, since a crate with tests is proved twice.
//
// `scripts` are what is run, `running` runs it and `ran` is what comes of it, of which `outcome` asks what each test asks, and `counting` tells who did
// what. `asking_source` and `watched_sink` ask until a display is settled; `held_source` and `held_sink` go on as a gate holds workers, by `held`,
// `passing_gate` has one ticket let others go, and `install_gate` holds them later.
// `replay`, `mark` and `drawn` take the history that is left, entry by entry.
// The tests ask who settles (`settling_tests`), what edits do beside workers (`edit_tests`), how many workers there are (`number_tests`), what the
// session does about its own tickets (`own_ticket_tests`), and what comes of workers at work as a run ends (`ending_tests`).
#![tactic(auto)]

#[cfg(test)]
mod asking_source;
#[cfg(test)]
mod counting;
#[cfg(test)]
mod drawn;
#[cfg(test)]
mod edit_tests;
#[cfg(test)]
mod ending_tests;
#[cfg(test)]
mod held;
#[cfg(test)]
mod held_sink;
#[cfg(test)]
mod held_source;
#[cfg(test)]
mod install_gate;
#[cfg(test)]
mod mark;
#[cfg(test)]
mod number_tests;
#[cfg(test)]
mod outcome;
#[cfg(test)]
mod own_ticket_tests;
#[cfg(test)]
mod passing_gate;
#[cfg(test)]
mod ran;
#[cfg(test)]
mod replay;
#[cfg(test)]
mod running;
#[cfg(test)]
mod scripts;
#[cfg(test)]
mod settling_tests;
#[cfg(test)]
mod watched_sink;
