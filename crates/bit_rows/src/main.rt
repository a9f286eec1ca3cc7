// Values of bits, worked out by hand: the tables of the folder of data, compared with what `bits` makes of them.
//
// `reader` takes one row by the calls that its table names (`calls`); `numbers` reads a row's `number`s.
#![tactic(auto)]

mod calls;
mod number;
mod numbers;
mod reader;

use crate::reader::BitReader;
use row_tables::{NoProperty, compare_all};
use std::io;

fn main(rt: HostRuntime) -> io::Result<()> {
    compare_all(&rt, &BitReader, &NoProperty)
}
