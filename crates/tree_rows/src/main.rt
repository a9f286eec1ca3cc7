// Parses the texts of its folder of data, and compares what is read of them with what has to be read.
//
// A reader (`reader`) takes one row: `trees` has those of the grammar, with `written` and `written_items` for the trees, which they write
// into a `tree_text`. `properties` has what is said of a whole table.
#![tactic(auto)]

mod properties;
mod reader;
mod tree_text;
mod trees;
mod written;
mod written_items;

use crate::properties::TreeProperty;
use crate::reader::TreeReader;
use row_tables::compare_all;
use std::io;

fn main(rt: HostRuntime) -> io::Result<()> {
    compare_all(&rt, &TreeReader, &TreeProperty)
}
