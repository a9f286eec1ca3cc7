// A design that runs.
ghost use Rattle.std.specs.Prelude.{◌≤◌, ◌^◌, length};
ghost use Rattle.std.specs.List.{All};
ghost use Rattle.std.proofs.Props.{props};
ghost use Rattle.stimulus.specs.Records.{rows_of};
ghost use Rattle.stimulus.specs.Rows.{AreAscending};

use book_history::version::Version;
use cycle_eval::Design;
use std::alloc::Global;
use std::sync::Arc;
use stimulus::{Record, Row};
use version_swap::{KeyList, Texts};

/// A version with its texts and its keys, the current row, and the record of the cycles that were run. Its states are those of the book that stands
/// beside the session.
///
/// At most 2^40 cycles were run.
#[derive(Drop)]
pub struct Running {
    pub texts: Texts,
    /// The design with its number, from 1 on.
    pub version: Arc<Version<Design>, Global>,
    pub keys: KeyList,
    pub row: Arc<Row, Global>,
    pub record_: Record,
    /// How much of the session's room is charged.
    pub charge: u32,
    ghost in_range: { length (rows_of record_) ≤ 2 ^ 40 },
    ghost some_version: { 1 ≤ version.value.number },
    ghost row_ascends: { AreAscending row.value },
    ghost rows_ascend: { All AreAscending (rows_of record_) } by { Prim.hlevel props },
}
