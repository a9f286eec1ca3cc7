// What a worker's thread promises.
ghost use Rattle.std.specs.Prelude.{false};
ghost use Rattle.book_history.specs.declared.who.Who.TheVariants.{Worker};
ghost use Rattle.book_turn.specs.Passes.{IsOf, known};
ghost use Rattle.segment_verify.specs.Entries.{AreTurns};
ghost use Rattle.segment_verify.specs.Workers.{HasEnded};

use book_history::historied::Historied;
use book_turn::{Turn, WorkerPass};
use std::snapshot::Snapshot;
use std::thread::Promise;

/// That the pass which comes back is of this turn, is free, and has seen a Close, and that all entries that it added are
/// turns of the worker of this number.
#[derive(Drop)]
pub struct Ends<B: Historied> {
    pub(crate) turn: Snapshot<Turn<B>>,
    pub(crate) number: u16,
}

impl<B: Historied> Promise<WorkerPass<B>> for Ends<B> {
    ghost kept_by = { λ p r. IsOf p.turn.value r false × HasEnded (known r) × AreTurns (Worker p.number) (known r).own };
}
