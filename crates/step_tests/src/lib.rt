// Tests of steps over words and of states as words, in a crate of their own, since a crate with tests is proved twice: steps that are walked over
// (`walk_tests`) and laid out (`layout_tests`), and words in shared pages (`page_tests`) and in slots (`state_tests`). What they expect was
// worked out by hand.
#![tactic(auto)]

#[cfg(test)]
mod layout_tests;
#[cfg(test)]
mod page_tests;
#[cfg(test)]
mod state_tests;
#[cfg(test)]
mod walk_tests;
