// A combinational block to the reads that come before it has written what they read, and the signals with a latch.
ghost use Rattle.std.specs.Prelude.{◌++◌, ◌∷◌, [], ◌≡◌, ◌&&◌, ◌||◌, ◌==◌, ℕ, IsTrue, IfOk, not};
ghost use Rattle.typed_ir.specs.Statements.{stmt_of};
ghost use Rattle.typed_ir.specs.Orders.{is_member, are_distinct};
ghost use Rattle.block_rules.specs.Paths.{flags_of_block, places_of_true, true_from, is_open, unwritten, AreHere};
ghost use Rattle.block_rules.specs.Tables.{size, bits_of, is_named, signals_of, AreBlank, AreTaken};

use crate::bit_table::BitTable;
use crate::learning::{forget, learn_spans};
use crate::path_tables::PathTables;
use crate::reading::is_open;
use crate::targets::targets_in;
use crate::walking::walk;
use ls_text::NoMemory;
use std::alloc::Global;
use typed_ir::{SignalId, Stmt, Touch};

/// What is wrong with a combinational block.
#[derive(Debug, Drop)]
pub struct Paths {
    /// The numbers of the reads of bits that the block writes and that aren't written on every path to the read, rising; a block's reads
    /// are numbered from 0 in the order of its text.
    pub early: Vec<usize>,
    /// The signals of which the block doesn't write each bit on every path that it writes at all, each once.
    pub unwritten: Vec<SignalId>,
}

// Adds a place where its flag is true.
fn add_true(flag: bool, place: usize, places: &mut Vec<usize>) -> Result<(), NoMemory>
    ensures { IfOk result (λ _. places.new.items ≡ places.old.items ++ true_from place (flag ∷ [])) }
{
    if flag {
        places.push(place)?;
    }
    Ok(())
}

// The places of the flags that are true.
fn true_places(alloc: Global, flags: &[bool]) -> Result<Vec<usize>, NoMemory>
    ensures { IfOk result (λ places. places.items ≡ places_of_true flags.now) }
{
    let mut places = Vec::new(alloc);
    for place in 0..flags.len() {
        add_true(flags[place], place, &mut places)?;
    }
    Ok(places)
}

// Takes a signal out of the table of what is written, and adds it where it has a bit there that isn't known.
fn take_open(
    signal: SignalId,
    written: &mut BitTable,
    known: &BitTable,
    found: &mut Vec<SignalId>,
) -> Result<(), NoMemory>
    requires { AreTaken found.old.items written.old known.now }
    ensures taken { IfOk result (λ _. AreTaken found.new.items written.new known.now) }
    ensures found { IfOk result (λ _. (s : ℕ) → is_member s found.new.items
        ≡ (is_member s found.old.items || ((s == signal) && is_open (bits_of written.old) (bits_of known.now) s))) }
    ensures size { IfOk result (λ _. size written.new ≡ size written.old) }
    ensures bits { IfOk result (λ _. (s i : ℕ) → bits_of written.new s i ≡ (bits_of written.old s i && not (s == signal))) }
{
    let open = is_open(written.mask(signal), known.mask(signal));
    written.take(signal, u128::MAX);
    if open {
        found.push(signal)?;
    }
    Ok(())
}

// Takes the signals of masks out of the table of what is written: the answer has those with a bit there that isn't known.
fn take_signals(
    alloc: Global,
    touches: &[Touch],
    written: &mut BitTable,
    known: &BitTable,
) -> Result<Vec<SignalId>, NoMemory>
    ensures once { IfOk result (λ found. IsTrue (are_distinct found.items)) }
    ensures found { IfOk result (λ found. (s : ℕ) → is_member s found.items
        ≡ (is_named touches.now s && is_open (bits_of written.old) (bits_of known.now) s)) }
    ensures size { IfOk result (λ _. size written.new ≡ size written.old) }
    ensures bits { IfOk result (λ _. (s i : ℕ) → bits_of written.new s i ≡ (bits_of written.old s i && not (is_named touches.now s))) }
{
    let mut found = Vec::new(alloc);
    for touch in touches {
        take_open(touch.signal, written, known, &mut found)?;
    }
    Ok(found)
}

/// What is wrong with a combinational block, whose targets are signals of the tables. It takes time by the length of the block and the
/// nesting of its branches alone. Want of memory is `NoMemory`; the tables may then have any bits and are not to be used again.
pub fn paths_of(alloc: Global, tables: &mut PathTables, body: &Stmt) -> Result<Paths, NoMemory>
    requires blank { AreBlank tables.old }
    requires here { AreHere (signals_of tables.old) (stmt_of body.now) }
    ensures early { IfOk result (λ paths. paths.early.items ≡ places_of_true (flags_of_block (stmt_of body.now))) }
    ensures unwritten { IfOk result (λ paths. (s : ℕ) → is_member s paths.unwritten.items ≡ unwritten (stmt_of body.now) s) }
    ensures once { IfOk result (λ paths. IsTrue (are_distinct paths.unwritten.items)) }
    ensures signals { IfOk result (λ _. signals_of tables.new ≡ signals_of tables.old) }
    ensures blank { IfOk result (λ _. AreBlank tables.new) }
{
    let spans = targets_in(alloc, body)?;
    let mut touches = Vec::new(alloc);
    learn_spans(&spans, &mut tables.written, &mut touches)?;
    let mut flags = Vec::new(alloc);
    let mut learned = Vec::new(alloc);
    walk(
        alloc,
        body,
        &tables.written,
        &mut tables.known,
        &mut flags,
        &mut learned,
    )?;
    let early = true_places(alloc, &flags)?;
    let unwritten = take_signals(alloc, &touches, &mut tables.written, &tables.known)?;
    forget(&learned, &mut tables.known);
    Ok(Paths { early, unwritten })
}
