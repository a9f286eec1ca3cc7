// What texts about scripts say: a row of the table of scripts (`row`), the page of faults (`page`: an `entry` with each `example`), and the displays in what a script writes
// (`displays`).
#![tactic(auto)]

pub mod displays;
pub mod entry;
pub mod example;
pub mod page;
pub mod row;
