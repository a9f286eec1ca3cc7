// The book under its next version.
ghost use Rattle.std.specs.Prelude.{◌≡◌, ℕ, ◌<◌, ◌≤◌, ◌+◌, ◌-◌, ◌*◌, List, length, IfOk, OnOk};
ghost use Rattle.book_history.specs.Book.{last_cycle, chosen};
ghost use Rattle.book_history.specs.Law.{record_of};
ghost use Rattle.checkpoint_book.specs.Renew.{AllFit, Rises, IsReloaded};

use crate::idle::left_of;
use crate::opened::Opened;
use crate::renew::{choose, renew_segs};
use book_history::history_writer::HistoryWriter;
use book_history::version::Version;
use ls_text::NoMemory;
use machine::Machine;
use machine::steps::Steps;
use std::alloc::Global;
use std::sync::Arc;
use std::sync::ledger::Ledger;

/// The book under the next version, and the cycle of the mark that was chosen, for a limit on that cycle.
pub fn renewed<M: Machine, L: Ledger>(
    alloc: Global,
    o: &Opened<M, M::State>,
    history: &HistoryWriter<M>,
    limit: u64,
    version: Arc<Version<M>, Global>,
    ops: &M::Ops,
    steps: &mut Steps<L>,
) -> Result<(Opened<M, M::State>, u64), NoMemory>
    requires ops { M.valid o.now.version.value.machine.value version.value.machine.value ops.now }
    requires fit { AllFit (M.fits o.now.version.value.machine.value) o.now.segs.items }
    requires rises { Rises 0 o.now.segs.items }
    requires end { last_cycle 0 o.now.segs.items ≡ length (record_of history.now.events) }
    requires few { length o.now.segs.items < 1024 }
    ensures cycle { IfOk result (λ r. r.1 ≡ chosen limit 0 o.now.segs.items) }
    ensures book { IfOk result (λ r. IsReloaded M.kit o.now.version.value.machine.value version.value ops.now (record_of history.now.events) limit o.now.segs.items r.0) }
    ensures taken { OnOk result (steps.new ≡ steps.old + (length (record_of history.now.events) - chosen limit 0 o.now.segs.items) * M.work version.value.machine.value) }
    ensures rises { steps.old ≤ steps.new }
    ensures most { steps.new ≤ steps.old + (length (record_of history.now.events) - chosen limit 0 o.now.segs.items) * M.work version.value.machine.value }
{
    let machine: &M = &*version.machine;
    let (count, from) = choose(&o.segs, limit);
    let (kept, later) = o.segs.split_at(count);
    let first = machine.reset(alloc)?;
    let rows = history.rows(alloc, from, history.cycle())?;
    let old: &M = &*o.version.machine;
    let segs = renew_segs(
        alloc, old, machine, ops, &first, kept, later, &rows, from, steps,
    )?;
    let left = left_of(&segs);
    let next = Opened {
        version,
        first,
        segs,
        left,
    };
    Ok((next, from))
}
