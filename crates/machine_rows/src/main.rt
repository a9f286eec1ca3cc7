// Values of expressions and registers of designs, worked out by hand: the tables of the folder of data, compared with what the
// machine of a design makes of them.
//
// A row has words, each a name and numbers (`word`), in postfix order: what stands before a word is what it takes. `operators` are
// the names of operators, `expressions` takes the words of a sized expression, `statements` those of statements, `declarations`
// those of signals and of whole blocks. `made` keeps what is made of them, `values` shows an expression's value, `designs` makes a
// design, `running` runs one and `carrying` carries a state into another. `reader` takes one row by the reader that its table names.
#![tactic(auto)]

mod carrying;
mod declarations;
mod designs;
mod expressions;
mod made;
mod operators;
mod reader;
mod running;
mod statements;
mod values;
mod word;

use crate::reader::MachineReader;
use row_tables::{NoProperty, compare_all};
use std::io;

fn main(rt: HostRuntime) -> io::Result<()> {
    compare_all(&rt, &MachineReader, &NoProperty)
}
