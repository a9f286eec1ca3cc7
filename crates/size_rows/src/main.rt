// Sizes the expressions of its folder of data, and compares values, constants and first faults with what they have to be.
//
// A reader (`reader`) takes one row, an expression that is `prepared` with the names that it speaks of: `sizes` shows its value or its first
// fault, `scopes` what it is within a block of a scope.
#![tactic(auto)]

mod prepared;
mod reader;
mod scopes;
mod sizes;

use crate::reader::SizeReader;
use row_tables::{NoProperty, compare_all};
use std::io;

fn main(rt: HostRuntime) -> io::Result<()> {
    compare_all(&rt, &SizeReader, &NoProperty)
}
