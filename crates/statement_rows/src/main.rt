// Sizes the blocks and continuous assignments of its folder of data, and compares what variables have afterwards, and first faults,
// with what they have to be.
//
// A reader (`reader`) takes one row, a module: `blocks` sizes its items, `stepping` lays each out as steps and walks over these, with an
// `outcome`, and the values of what they write, the `variables`, are shown.
#![tactic(auto)]

mod blocks;
mod outcome;
mod reader;
mod stepping;
mod variables;

use crate::reader::StatementReader;
use row_tables::{NoProperty, compare_all};
use std::io;

fn main(rt: HostRuntime) -> io::Result<()> {
    compare_all(&rt, &StatementReader, &NoProperty)
}
