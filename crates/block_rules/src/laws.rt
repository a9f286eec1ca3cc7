// Blocks with which nothing is wrong, and blocks of which this can be asked.
ghost use Rattle.std.specs.Prelude.{◌≡◌, ◌≤◌, ℕ, true, List, length, slice_index};
ghost use Rattle.typed_ir.specs.Stmts.{SizedStmt, is_legal};
ghost use Rattle.block_rules.specs.Paths.{BlocksAreWhole, AreHere, AreNarrow};

/// A block of which no read comes too early and no signal has a latch writes each of its bits on every path, and before it reads it;
/// this holds where no bit that it writes is above the 128 that a signal can have.
pub fn whole_blocks()
    ensures { BlocksAreWhole }
{}

/// A block that is legal over signals of these widths writes signals below their number, and no bit above the 128 that a signal can
/// have.
#[tactic(none)]
pub fn legal_blocks()
    ensures here { (st : SizedStmt) (widths : List ℕ) → is_legal st widths ≡ true → AreHere (length widths) st }
    ensures narrow { (st : SizedStmt) (widths : List ℕ) → ((k : ℕ) → slice_index widths k ≤ 128) → is_legal st widths ≡ true → AreNarrow st }
{}
