// Tests of the whole program where something outside of it fails, or gives it what it can't take, in a crate of their own, since a crate with tests is
// proved twice.
//
// `scripts` are what is run and what answers it, `running` runs it. The tests: `outside_tests` (reads and writes), `stream_tests` (over a
// `broken_reader` and a `broken_writer`), `shelf_tests`, `cut_tests` and `text_tests` (over `texts`). `byte_sink` takes a byte at a time, `dry_shelf` has no memory once.
#![tactic(auto)]

#[cfg(test)]
mod broken_reader;
#[cfg(test)]
mod broken_writer;
#[cfg(test)]
mod byte_sink;
#[cfg(test)]
mod cut_tests;
#[cfg(test)]
mod dry_shelf;
#[cfg(test)]
mod outside_tests;
#[cfg(test)]
mod running;
#[cfg(test)]
mod scripts;
#[cfg(test)]
mod shelf_tests;
#[cfg(test)]
mod stream_tests;
#[cfg(test)]
mod text_tests;
#[cfg(test)]
mod texts;
