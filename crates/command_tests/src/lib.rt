// Tests of the outside and of what a script and a command line ask for, in a crate of their own, since a crate with tests is proved twice: the order
// of calls of the sources and sinks (`stream_tests`) and shelves (`shelf_tests`) of `ls_port`; rows of what `command_read` answers, in pieces of several
// sizes (`script_tests`), of what `live_options` does (`option_tests`), and the script of `load_maker` (`load_tests`).
#![tactic(auto)]

#[cfg(test)]
mod load_tests;
#[cfg(test)]
mod option_tests;
#[cfg(test)]
mod script_tests;
#[cfg(test)]
mod shelf_tests;
#[cfg(test)]
mod stream_tests;
