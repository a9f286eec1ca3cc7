// What the entries so far make of a book, entry by entry.
use crate::counts::Counts;
use crate::drawn::Drawn;
use crate::links::{free, place, reopen, settled_to, wanted};
use crate::mark::Mark;
use crate::reloading::{chosen, renew};
use crate::running::run;
use crate::settings::Settings;
use crate::states::{advanced, are_valid, reset, same, share};
use crate::truth::are_true;
use book_history::entry::Entry;
use book_history::link::Link;
use book_history::load::Load;
use book_history::who::Who;
use cycle_eval::Design;
use ls_text::NoMemory;
use machine::row_runs::RowRuns;
use reg_ops::RegOps;
use std::alloc::Global;
use stimulus::Row;

/// The version's number, the cycle, the marks with their links, the tickets that were drawn, and how many loads were taken. The first mark is at cycle 0.
#[derive(Drop)]
pub struct Replay {
    settings: Settings,
    counts: Counts,
    version: u64,
    cycle: u64,
    pub marks: Vec<Mark>,
    tickets: Vec<Drawn>,
    loaded: usize,
}

impl Replay {
    /// No entry yet, under these settings.
    pub fn new(alloc: Global, settings: Settings) -> Replay {
        Replay {
            settings,
            counts: Counts::none(),
            version: 0,
            cycle: 0,
            marks: Vec::new(alloc),
            tickets: Vec::new(alloc),
            loaded: 0,
        }
    }

    /// Takes one entry. The answer is whether it stands right there, and whether each joined link is true then.
    pub fn take(
        &mut self,
        alloc: Global,
        entry: Entry,
        loads: &[Load<Design, RegOps>],
        rows: &RowRuns<Row>,
    ) -> Result<bool, NoMemory> {
        if !self.counts.take(entry, self.settings.rooms) {
            return Ok(false);
        }
        let is_right = match entry {
            Entry::Open { version } => self.open(alloc, version, loads)?,
            Entry::Run { n } => self.run(alloc, n, rows)?,
            Entry::Reload { version, from } => self.reload(alloc, version, from, loads, rows)?,
            Entry::Claim { ticket, a, b, by } => self.claim(alloc, ticket, a, b, by)?,
            Entry::Install { ticket, joined, by } => {
                self.install(alloc, ticket, joined, by, rows)?
            }
            Entry::Release { ticket, by } => self.release(ticket, by),
            Entry::Show { settled_to: told } => {
                self.version > 0 && told == settled_to(&self.marks)
            }
            Entry::Close => true,
        };
        Ok(is_right && are_true(alloc, &mut self.marks, rows)?)
    }

    /// Whether all loads and all rows were taken.
    pub fn is_whole(&self, loads: &[Load<Design, RegOps>], rows: &RowRuns<Row>) -> bool {
        self.loaded == loads.len() && self.cycle == rows.end()
    }

    // One mark, which is reset at cycle 0.
    fn open(
        &mut self,
        alloc: Global,
        version: u64,
        loads: &[Load<Design, RegOps>],
    ) -> Result<bool, NoMemory> {
        let Some(Load::Open(held)) = loads.get(self.loaded) else {
            return Ok(false);
        };
        if self.version != 0 || version != 1 || held.number != version {
            return Ok(false);
        }
        self.marks.push(Mark {
            cycle: 0,
            link: Link::Joined,
            is_checked: true,
            own: reset(alloc, held)?,
        })?;
        self.version = version;
        self.loaded = self.loaded.saturating_add(1);
        Ok(true)
    }

    fn run(&mut self, alloc: Global, n: u64, rows: &RowRuns<Row>) -> Result<bool, NoMemory> {
        let start = self.cycle;
        if self.version == 0 || n == 0 || n > rows.end().saturating_sub(start) {
            return Ok(false);
        }
        self.cycle = start.saturating_add(n);
        let interval = self.settings.interval;
        run(alloc, &mut self.marks, interval, start, self.cycle, rows)
    }

    fn reload(
        &mut self,
        alloc: Global,
        version: u64,
        from: u64,
        loads: &[Load<Design, RegOps>],
        rows: &RowRuns<Row>,
    ) -> Result<bool, NoMemory> {
        let Some(Load::Reload(held, ops)) = loads.get(self.loaded) else {
            return Ok(false);
        };
        let Some(first) = self.marks.first() else {
            return Ok(false);
        };
        let limit = self.cycle.saturating_sub(self.settings.lookback);
        let is_next = version == self.version.saturating_add(1) && held.number == version;
        if !is_next || from != chosen(&self.marks, limit) {
            return Ok(false);
        }
        if !are_valid(alloc, &*first.own.version.machine, &*held.machine, ops)? {
            return Ok(false);
        }
        self.version = version;
        self.loaded = self.loaded.saturating_add(1);
        renew(alloc, &mut self.marks, held, ops, limit, rows)
    }

    // The link is out with a new ticket.
    fn claim(
        &mut self,
        alloc: Global,
        ticket: u64,
        a: u64,
        b: u64,
        by: Who,
    ) -> Result<bool, NoMemory> {
        let at = wanted(&self.marks, by);
        if at == 0 || at >= self.marks.len() {
            return Ok(false);
        }
        let begin = &self.marks[at - 1];
        let is_right = a == begin.cycle && b == self.marks[at].cycle;
        let start = share(alloc, &begin.own)?;
        let number = self.tickets.len() as u64 + 1;
        self.marks[at].link = Link::Out(number);
        self.tickets.push(Drawn {
            version: self.version,
            a,
            b,
            start,
            by,
            is_out: true,
        })?;
        Ok(is_right && ticket == number)
    }

    // Uses a ticket up. The answer is its index, where it was out and this one asked for it.
    fn use_up(&mut self, ticket: u64, by: Who) -> Option<usize> {
        if ticket == 0 || ticket > self.tickets.len() as u64 {
            return None;
        }
        let index = ticket as usize - 1;
        let drawn = &mut self.tickets[index];
        if !drawn.is_out || drawn.by != by {
            return None;
        }
        drawn.is_out = false;
        Some(index)
    }

    // The link is joined exactly where version, cycles and start are still the ticket's. Else nothing changes, but that the ticket is used up.
    fn install(
        &mut self,
        alloc: Global,
        ticket: u64,
        joined: bool,
        by: Who,
        rows: &RowRuns<Row>,
    ) -> Result<bool, NoMemory> {
        let Some(index) = self.use_up(ticket, by) else {
            return Ok(false);
        };
        let Some(drawn) = self.tickets.get(index) else {
            return Ok(false);
        };
        let at = place(&self.marks, drawn);
        if drawn.version != self.version || at == 0 {
            return Ok(!joined);
        }
        if !joined {
            return Ok(false);
        }
        join(alloc, &mut self.marks, at, drawn, rows)
    }

    // The link that is out with the ticket opens.
    fn release(&mut self, ticket: u64, by: Who) -> bool {
        if self.use_up(ticket, by).is_none() {
            return false;
        }
        free(&mut self.marks, ticket);
        true
    }
}

// The link to this mark is joined by the result of a ticket. Where the mark's state is another one, the mark takes it, and the next link opens.
fn join(
    alloc: Global,
    marks: &mut Vec<Mark>,
    at: usize,
    drawn: &Drawn,
    rows: &RowRuns<Row>,
) -> Result<bool, NoMemory> {
    let Some(result) = advanced(alloc, rows, &drawn.start, drawn.a, drawn.b)? else {
        return Ok(false);
    };
    if at >= marks.len() {
        return Ok(false);
    }
    marks[at].link = Link::Joined;
    marks[at].is_checked = false;
    if !same(&result, &marks[at].own) {
        marks[at].own = result;
        reopen(marks, at.saturating_add(1));
    }
    Ok(true)
}
