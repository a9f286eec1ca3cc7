// Unrolls the modules of its folder of data, and compares their steps with those that are wanted.
//
// A reader (`reader`) unrolls the first module of a row, under the overrides that `overrides` reads; `shown` writes its steps or their counts (`shown_part`).
#![tactic(auto)]

mod overrides;
mod reader;
mod shown;
mod shown_part;

use crate::reader::ModuleReader;
use row_tables::{NoProperty, compare_all};
use std::io;

fn main(rt: HostRuntime) -> io::Result<()> {
    compare_all(&rt, &ModuleReader, &NoProperty)
}
