// The checkpoint book: marks, links, versions and tickets over any machine. Each call appends its own entry to the
// history, and the book is what the entries make of it.
//
// `book` has the calls; each works on values of its own first: `opened` (`begin` makes the first), `grow` (a run's marks, taken in by
// `growth`), `reload` and `renew` (an edit's), `draw` (a ticket of a claim), `find` and `install` (a result), `free` (a ticket that is
// given up), `settled` (a display). `counters` counts entries and tickets; `left` says what is left to be verified, which `idle` tells
// from the links. Answers: `claimed`, `ticket`, `verified`, `installed`, `shown`, `why`; `marks` are those
// of a run that come behind a book's own.
#![tactic(auto)]

mod begin;
pub mod book;
pub mod claimed;
mod counters;
mod draw;
mod find;
mod free;
mod grow;
mod growth;
mod idle;
mod install;
pub mod installed;
mod left;
mod marks;
mod opened;
mod reload;
mod renew;
mod settled;
pub mod shown;
pub mod ticket;
pub mod verified;
pub mod why;
