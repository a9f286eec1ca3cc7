// Preprocesses and lexes the texts of its folder of data, and compares what is made of them with what has to be made.
//
// A reader (`reader`) takes one row: `tokens` has those of the preprocessor and the lexer.
#![tactic(auto)]

mod reader;
mod tokens;

use crate::reader::TextReader;
use row_tables::{NoProperty, compare_all};
use std::io;

fn main(rt: HostRuntime) -> io::Result<()> {
    compare_all(&rt, &TextReader, &NoProperty)
}
