// Tables for walks through blocks.
ghost use Rattle.std.specs.Prelude.{◌≡◌, IfOk};
ghost use Rattle.block_rules.specs.Tables.{signals_of, AreBlank};

use crate::bit_table::BitTable;
use ls_text::NoMemory;
use std::alloc::Global;

/// For each signal the bits that a block may write, and those that are written at a place of it. Between two calls there are none.
#[derive(Drop)]
pub struct PathTables {
    pub(crate) written: BitTable,
    pub(crate) known: BitTable,
}

impl PathTables {
    /// Tables for so many signals. Want of memory is `NoMemory`.
    pub fn new(alloc: Global, signals: usize) -> Result<PathTables, NoMemory>
        ensures signals { IfOk result (λ tables. signals_of tables ≡ signals) }
        ensures blank { IfOk result (λ tables. AreBlank tables) }
    {
        let written = BitTable::new(alloc, signals)?;
        let known = BitTable::new(alloc, signals)?;
        Ok(PathTables { written, known })
    }
}
