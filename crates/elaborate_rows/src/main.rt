// Elaborates the texts of its folder of data, and compares their instances or first faults with those that are wanted.
//
// A reader (`reader`) takes one row, a text of modules, and shows what `shown` makes of the tree or of its first fault.
#![tactic(auto)]

mod reader;
mod shown;

use crate::reader::DesignReader;
use row_tables::{NoProperty, compare_all};
use std::io;

fn main(rt: HostRuntime) -> io::Result<()> {
    compare_all(&rt, &DesignReader, &NoProperty)
}
