// Builds and links the designs of its folder of data, and compares what they are, or their first faults, with what is wanted.
//
// `comparing` goes over the tables, and a reader (`reader`: `reading` of one text, `edits` of several) takes a row's text to its modules
// (`modules`). `designing` takes these to a `design` in its `way`: the tree of `elaborate`, its jobs (`unit_jobs`), their keys and units
// (`units`) in a `stock`, and their design, when the units are seen to stand in the tree (`standing`). What makes units makes them on several
// threads, and counts them (`counting_forge`). `shown` writes what a row shows, with nodes called as `node_names` says.
#![tactic(auto)]

mod comparing;
mod counting_forge;
mod design;
mod designing;
mod edits;
mod modules;
mod node_names;
mod reader;
mod reading;
mod shown;
mod standing;
mod stock;
mod units;
mod way;

use crate::comparing::compare_all;
use std::io;

fn main(rt: HostRuntime) -> io::Result<()> {
    compare_all(&rt)
}
