// The book.
ghost use Rattle.std.specs.Prelude.{◌≡◌, ℕ, ◌+◌, ◌-◌, ◌*◌, ◌<◌, ◌≤◌, ◌^◌, length, List, [], ◌∷◌, ◌++◌, true, false, Bool, ◌||◌, None, Some, IfOk, IfSome, IfNone, OnErr, OnOk, IsTrue};
ghost use Rattle.book_history.specs.Book.{replay, Opens, Runs, Reloads, Installs, Releases, Shows, Closes};
ghost use Rattle.book_history.specs.Legal.{Legal};
ghost use Rattle.book_history.specs.Outs.{IsOutFor};
ghost use Rattle.book_history.specs.Rooms.{HasRoom, out_in};
ghost use Rattle.book_history.specs.Truth.{True};
ghost use Rattle.checkpoint_book.specs.Answers.{is_joined_answer, shown_to};
ghost use Rattle.book_history.specs.declared.who.Who.TheVariants.{Session, Worker};
ghost use Rattle.checkpoint_book.specs.Claims.{IsDrawn, ClaimIs, CausesAre, ticket_in, claims_nothing};
ghost use Rattle.checkpoint_book.specs.Views.{book_of, counts_of, IsOpened, version_in, cycle_in, links_in, marks_in, work_in, IsLast, FitsMachine, LeadTo, chosen_in, shown_in, answer_in, is_none, none_free, is_full, HasSessionRoom, HasRoomFor};

use crate::begin::begun;
use crate::claimed::Claimed;
use crate::counters::{Counters, drew, one_of_session, used};
use crate::draw::draw;
use crate::free::release_in;
use crate::grow::{grown, last};
use crate::growth::{grow, make_room};
use crate::install::install_in;
use crate::installed::Installed;
use crate::opened::Opened;
use crate::reload::renewed;
use crate::settled::shown;
use crate::shown::Shown;
use crate::ticket::Ticket;
use crate::verified::Verified;
use book_history::entry::Entry;
use book_history::historied::Historied;
use book_history::history::History;
use book_history::history_writer::HistoryWriter;
use book_history::laws::{legal_histories, tickets_of_histories};
use book_history::rooms::Rooms;
use book_history::version::Version;
use book_history::who::Who;
use ls_text::NoMemory;
use machine::Machine;
use machine::row_runs::RowRuns;
use machine::steps::Steps;
use std::alloc::Global;
use std::marker::Model;
use std::sync::Arc;
use std::sync::ledger::Ledger;

/// A book with its whole history. Contracts see its settings and its entries with all that belongs to them; the book
/// is what `replay` makes of these, and each call appends just its own entry.
#[derive(Drop)]
pub struct Book<M: Machine> {
    alloc: Global,
    history: HistoryWriter<M>,
    opened: Option<Opened<M, M::State>>,
    counters: Counters,
}

impl<M: Machine> Model for Book<M> {
    ghost use Rattle.book_history.specs.Journal.{Journal};
    ghost use Rattle.checkpoint_book.specs.Kept.{IsKept};

    ghost Value = { Journal M M.Row M.Ops };

    ghost view = { λ b. b.history };

    ghost invariant = { λ b. IsKept M.kit b.history b.opened b.counters };
}

impl<M: Machine> Historied for Book<M> {
    type Machine = M;

    type Row = M::Row;

    type Ops = M::Ops;

    ghost history = { λ b. b };
}

impl<M: Machine> Book<M> {
    /// A book without a version, with room for its whole history: as many entries as its rooms allow, and a close. `interval`
    /// is the distance of two marks in cycles, at least 1; `lookback` is how many cycles before the current one a reload
    /// begins, at the last mark that is so early. No call but this one takes memory for entries.
    pub fn new(
        alloc: Global,
        interval: u64,
        lookback: u64,
        rooms: Rooms,
    ) -> Result<Box<Book<M>>, NoMemory>
        requires interval { 1 ≤ interval }
        ensures settings { IfOk result (λ b. b.value.settings ≡ record { interval = interval; lookback = lookback; rooms = rooms }) }
        ensures events { IfOk result (λ b. b.value.events ≡ []) }
    {
        let history = HistoryWriter::new(alloc, interval, lookback, rooms)?;
        let counters = Counters {
            session: 0,
            workers: 0,
            drawn: 0,
            out: 0,
            closed: false,
        };
        let book = Book {
            alloc,
            history,
            opened: None,
            counters,
        };
        Ok(Box::new(alloc, book)?)
    }

    /// Whatever its history, it is legal: what the law says of legal histories holds of this book.
    pub fn legal(&self)
        ensures { Legal M.kit M.valid self.now.settings self.now.events }
    {
        self.history.legal();
    }

    /// Whatever its history, the book is true.
    pub fn is_true(&self)
        ensures { True M.kit M.fits (book_of M.kit self.now) }
    {
        self.history.legal();
        legal_histories::<M>();
    }

    /// Installs a verified ticket that this book drew for this asker: its link is joined, or nothing but the history
    /// changes. It takes no memory.
    pub fn install(&mut self, by: Who, v: Verified<M>) -> Installed
        requires out { IsOutFor (book_of M.kit self.old) v.0 v.1 by }
        requires room { HasRoomFor self.old by }
        ensures settings { self.new.settings ≡ self.old.settings }
        ensures events { self.new.events ≡ self.old.events ++ Installs v.0 (is_joined_answer result) by ∷ [] }
        ensures answer { result ≡ answer_in M.kit (book_of M.kit self.old) v.1 }
    {
        self.history.legal();
        let ticket = v.number();
        let Some(opened) = &mut self.opened else {
            unreachable!()
        };
        let answer = install_in(opened, v);
        let joined = answer.is_joined();
        self.history.push(Entry::Install { ticket, joined, by });
        self.counters = used(self.counters, by);
        answer
    }

    /// Gives a ticket that this book drew for this asker up. It takes no memory.
    pub fn release(&mut self, by: Who, t: Ticket<M>)
        requires out { IsOutFor (book_of M.kit self.old) t.0 t.1 by }
        requires room { HasRoomFor self.old by }
        ensures settings { self.new.settings ≡ self.old.settings }
        ensures events { self.new.events ≡ self.old.events ++ Releases t.0 by ∷ [] }
    {
        self.history.legal();
        let ticket = t.number();
        let Some(opened) = &mut self.opened else {
            unreachable!()
        };
        release_in(opened, ticket);
        self.history.push(Entry::Release { ticket, by });
        self.counters = used(self.counters, by);
    }

    /// Whether all links are joined, and else how far the leading joined ones go. It takes no memory.
    pub fn show(&mut self) -> Shown
        requires opened { IsOpened (book_of M.kit self.old) }
        requires room { HasSessionRoom self.old 1 }
        ensures settings { self.new.settings ≡ self.old.settings }
        ensures events { self.new.events ≡ self.old.events ++ Shows (shown_to result) ∷ [] }
        ensures answer { shown_to result ≡ shown_in (book_of M.kit self.old) }
    {
        self.history.legal();
        let Some(opened) = &self.opened else {
            unreachable!()
        };
        let answer = answer_of(shown(opened));
        self.history.push(Entry::Show {
            settled_to: answer.settled_to(),
        });
        self.counters = one_of_session(self.counters);
        answer
    }

    /// No claim is answered after it; installs and releases go on. It takes no memory.
    pub fn close(&mut self)
        requires open { (counts_of self.old).closed ≡ false }
        ensures settings { self.new.settings ≡ self.old.settings }
        ensures events { self.new.events ≡ self.old.events ++ Closes ∷ [] }
    {
        self.history.legal();
        self.history.push(Entry::Close);
        self.counters.closed = true;
    }

    /// The first version: one mark, the machine's reset at cycle 0. After want of memory the book is as before.
    pub fn open(&mut self, version: Arc<Version<M>, Global>) -> Result<(), NoMemory>
        requires never { book_of M.kit self.old ≡ None }
        requires number { version.value.number ≡ 1 }
        requires room { HasSessionRoom self.old 1 }
        ensures settings { self.new.settings ≡ self.old.settings }
        ensures ok { OnOk result (self.new.events ≡ self.old.events ++ Opens version.value.number version.value.machine.value ∷ []) }
        ensures err { OnErr result (self.new.events ≡ self.old.events) }
    {
        self.history.legal();
        let opened = begun(self.alloc, version)?;
        let version = Arc::try_clone(&opened.version)?;
        self.history.push_open(version)?;
        self.opened = Some(opened);
        self.counters = one_of_session(self.counters);
        Ok(())
    }

    /// Runs the next `n` cycles, at least 1 and up to cycle 2^40, over their rows, with a mark at each multiple of the interval
    /// on the way and one at the end. The counter rises by the machine's steps for each cycle. After want of memory the book is
    /// as before, and the counter has risen by no more than that.
    pub fn run<L: Ledger>(
        &mut self,
        rows: RowRuns<M::Row>,
        n: u64,
        steps: &mut Steps<L>,
    ) -> Result<(), NoMemory>
        requires opened { IsOpened (book_of M.kit self.old) }
        requires starts { rows.0 ≡ cycle_in (book_of M.kit self.old) }
        requires count { length rows.1 ≡ n }
        requires some { 1 ≤ n }
        requires bound { cycle_in (book_of M.kit self.old) + n ≤ 2 ^ 40 }
        requires room { HasSessionRoom self.old 1 }
        ensures settings { self.new.settings ≡ self.old.settings }
        ensures ok { OnOk result (self.new.events ≡ self.old.events ++ Runs n rows.1 ∷ []) }
        ensures err { OnErr result (self.new.events ≡ self.old.events) }
        ensures taken { OnOk result (steps.new ≡ steps.old + n * work_in M.work (book_of M.kit self.old)) }
        ensures rises { steps.old ≤ steps.new }
        ensures most { steps.new ≤ steps.old + n * work_in M.work (book_of M.kit self.old) }
    {
        self.history.legal();
        let Some(opened) = &mut self.opened else {
            unreachable!()
        };
        let (c, end) = (rows.start(), rows.end());
        let interval = self.history.interval();
        let growth = grown(self.alloc, opened, &rows, interval, c, end, steps)?;
        make_room(opened, &growth)?;
        self.history.push_run(self.alloc, &rows)?;
        grow(opened, growth);
        self.counters = one_of_session(self.counters);
        Ok(())
    }

    /// The next version: mark 0 becomes the new machine's reset, the other marks up to the chosen one are carried over, and those after it are
    /// simulated from it. The counter
    /// rises by the new machine's steps for each cycle from the chosen one on. The chosen cycle is the answer. After want of
    /// memory the book is as before, and the counter has risen by no more than that.
    pub fn reload<L: Ledger>(
        &mut self,
        version: Arc<Version<M>, Global>,
        ops: M::Ops,
        steps: &mut Steps<L>,
    ) -> Result<u64, NoMemory>
        requires opened { IsOpened (book_of M.kit self.old) }
        requires number { version.value.number ≡ version_in (book_of M.kit self.old) + 1 }
        requires valid { LeadTo M.valid (book_of M.kit self.old) version.value.machine.value ops }
        requires room { HasSessionRoom self.old 1 }
        ensures settings { self.new.settings ≡ self.old.settings }
        ensures ok { IfOk result (λ from. self.new.events ≡ self.old.events ++ Reloads version.value.number version.value.machine.value ops from ∷ []) }
        ensures chosen { IfOk result (λ from. from ≡ chosen_in self.old.settings (book_of M.kit self.old)) }
        ensures err { OnErr result (self.new.events ≡ self.old.events) }
        ensures taken { OnOk result (steps.new ≡ steps.old + (cycle_in (book_of M.kit self.old) - chosen_in self.old.settings (book_of M.kit self.old)) * M.work version.value.machine.value) }
        ensures rises { steps.old ≤ steps.new }
        ensures most { steps.new ≤ steps.old + (cycle_in (book_of M.kit self.old) - chosen_in self.old.settings (book_of M.kit self.old)) * M.work version.value.machine.value }
    {
        self.history.legal();
        let Some(opened) = &self.opened else {
            unreachable!()
        };
        let ops = Arc::new(self.alloc, ops)?;
        let limit = self.history.cycle().saturating_sub(self.history.lookback());
        let (next, from) = renewed(
            self.alloc,
            opened,
            &self.history,
            limit,
            version,
            &ops,
            steps,
        )?;
        let version = Arc::try_clone(&next.version)?;
        self.history.push_reload(version, ops, from)?;
        self.opened = Some(next);
        self.counters = one_of_session(self.counters);
        Ok(from)
    }

    /// Draws a ticket for the first link that the asker's claims take.
    fn take(&mut self, alloc: Global, by: Who) -> Result<Option<Ticket<M>>, NoMemory>
        requires open { (counts_of self.old).closed ≡ false }
        requires room { HasRoom self.old.settings (counts_of self.old) (out_in (book_of M.kit self.old)) by }
        ensures settings { self.new.settings ≡ self.old.settings }
        ensures none { IfOk result (λ r. IfNone r ((self.new.events ≡ self.old.events) × (none_free by (book_of M.kit self.old) ≡ true))) }
        ensures some { IfOk result (λ r. IfSome r (λ t. IsDrawn M.kit by self.old self.new t)) }
        ensures free { IfOk result (λ r. IfSome r (λ t. none_free by (book_of M.kit self.old) ≡ false)) }
        ensures err { OnErr result ((self.new.events ≡ self.old.events) × (none_free by (book_of M.kit self.old) ≡ false)) }
    {
        self.history.legal();
        tickets_of_histories::<M>();
        let Some(opened) = &mut self.opened else {
            return Ok(None);
        };
        let number = self.counters.drawn + 1;
        let Some(ticket) = draw(alloc, opened, &self.history, number, by)? else {
            return Ok(None);
        };
        self.history.push(Entry::Claim {
            ticket: number,
            a: ticket.a(),
            b: ticket.b(),
            by,
        });
        self.counters = drew(self.counters, by);
        Ok(Some(ticket))
    }

    /// A worker's claim: a ticket for the first open link, or nothing where no link is open, the workers' room is full or
    /// the book is closed. Only a ticket takes memory.
    pub fn claim(&mut self, alloc: Global, by: u16) -> Result<Claimed<M>, NoMemory>
        ensures settings { self.new.settings ≡ self.old.settings }
        ensures answer { IfOk result (λ r. ClaimIs M.kit (Worker by) self.old self.new (ticket_in r)) }
        ensures causes { IfOk result (λ r. CausesAre M.kit self.old r) }
        ensures err { OnErr result ((self.new.events ≡ self.old.events) × (claims_nothing M.kit (Worker by) self.old ≡ false)) }
    {
        let full = self.is_full();
        let closed = self.counters.closed;
        if full || closed {
            return Ok(Claimed::Nothing { full, closed });
        }
        match self.take(alloc, Who::Worker(by))? {
            Some(ticket) => Ok(Claimed::Ticket(ticket)),
            None => Ok(Claimed::Nothing {
                full: false,
                closed: false,
            }),
        }
    }

    /// The session's claim: a ticket for the first link that isn't joined, even if it is out, or None where all are joined.
    pub fn claim_first(&mut self, alloc: Global) -> Result<Option<Ticket<M>>, NoMemory>
        requires open { (counts_of self.old).closed ≡ false }
        requires room { HasSessionRoom self.old 2 }
        ensures settings { self.new.settings ≡ self.old.settings }
        ensures answer { IfOk result (λ r. ClaimIs M.kit Session self.old self.new r) }

        // It is None exactly where a show would answer Settled.
        ensures settled { IfOk result (λ r. is_none r ≡ is_none (shown_in (book_of M.kit self.old))) }
        ensures err { OnErr result ((self.new.events ≡ self.old.events) × (claims_nothing M.kit Session self.old ≡ false)) }
    {
        self.take(alloc, Who::Session)
    }

    /// Whether the workers' room is full: a claim's entry and that of its ticket's end have no place any more.
    fn is_full(&self) -> bool
        ensures { result ≡ is_full self.now.settings (counts_of self.now) (book_of M.kit self.now) }
    {
        let rooms = self.history.rooms();
        self.history.legal();
        self.counters.workers + self.counters.out + 2 > u64::from(rooms.workers)
    }

    /// The state of the last mark, which is one of the current machine's own.
    pub fn current(&self) -> &M::State
        requires opened { IsOpened (book_of M.kit self.now) }
        ensures last { IsLast (book_of M.kit self.now) result.now }
        ensures fits { FitsMachine M.fits (book_of M.kit self.now) result.now }
    {
        self.history.legal();
        let Some(opened) = &self.opened else {
            unreachable!()
        };
        last(&opened.first, &opened.segs)
    }

    /// The current cycle, 0 before the first version.
    pub fn cycle(&self) -> u64
        ensures { result ≡ cycle_in (book_of M.kit self.now) }
    {
        self.history.legal();
        legal_histories::<M>();
        self.history.cycle()
    }

    /// How many links there are.
    pub fn links(&self) -> u32
        ensures { result ≡ links_in (book_of M.kit self.now) }
    {
        match &self.opened {
            Some(opened) => opened.segs.len() as u32,
            None => 0,
        }
    }

    /// How many marks there are, at most 1,024, and none before the first version.
    pub fn marks(&self) -> u32
        ensures value { result ≡ marks_in (book_of M.kit self.now) }
        ensures most { result ≤ 1024 }
    {
        match &self.opened {
            Some(opened) => opened.segs.len() as u32 + 1,
            None => 0,
        }
    }

    /// How many entries more the session has room for.
    pub fn session_room(&self) -> u32
        ensures { (counts_of self.now).session + result ≡ self.now.settings.rooms.session }
    {
        self.history.legal();
        let rooms = self.history.rooms();
        rooms.session - self.counters.session as u32
    }

    /// The current version's number, 0 before the first one.
    pub fn version(&self) -> u64
        ensures { result ≡ version_in (book_of M.kit self.now) }
    {
        match &self.opened {
            Some(opened) => opened.version.number,
            None => 0,
        }
    }

    /// The history as it stands.
    pub fn into_history(book: Box<Book<M>>) -> History<M>
        ensures { result ≡ book.value }
    {
        let Book {
            alloc: _,
            history,
            opened: _,
            counters: _,
        } = Box::into_inner(book);
        history.into_history()
    }
}

/// The show's answer.
fn answer_of(shown: Option<u64>) -> Shown
    ensures { shown_to result ≡ shown }
{
    match shown {
        None => Shown::Settled,
        Some(settled_to) => Shown::Estimate { settled_to },
    }
}
