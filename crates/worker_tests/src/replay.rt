// A plain replay of the history of a book that has a mark at each of its first eight cycles, a lookback of 1, and the
// machines that add 3, 4, 5 and so on. It calls nothing of the book.
use crate::drawn::Drawn;
use book_history::entry::Entry;
use book_history::link::Link;
use book_history::who::Who;
use std::alloc::Global;

/// What the entries so far make of the book.
#[derive(Drop)]
pub struct Replay {
    version: u64,
    marks: [u64; 9],
    links: [Link; 8],
    tickets: Vec<Drawn>,
    closed: bool,
}

impl Replay {
    /// No entry yet. Links stand from the run on.
    pub fn new(alloc: Global) -> Replay {
        Replay {
            version: 0,
            marks: [0; 9],
            links: [Link::Open; 8],
            tickets: Vec::new(alloc),
            closed: false,
        }
    }

    /// Takes one entry. The answer is whether it stands right there, and whether each joined link is true then.
    pub fn take(&mut self, entry: Entry) -> bool {
        let right = match entry {
            Entry::Open { version } => self.open(version),
            Entry::Run { n } => self.run(n),
            Entry::Reload { version, from } => self.reload(version, from),
            Entry::Claim { ticket, a, b, by } => self.claim(ticket, a, b, by),
            Entry::Install { ticket, joined, by } => self.install(ticket, joined, by),
            Entry::Release { ticket, by } => self.release(ticket, by),
            Entry::Show { settled_to } => settled_to == self.settled_to(),
            Entry::Close => self.close(),
        };
        right && self.is_true()
    }

    /// Whether all links are joined.
    pub fn is_settled(&self) -> bool {
        self.settled_to().is_none()
    }

    /// Whether the book is closed and no ticket is out.
    pub fn is_over(&self) -> bool {
        for at in 0..self.tickets.len() {
            if self.tickets[at].out {
                return false;
            }
        }
        self.closed
    }

    /// The book is closed, once; nobody claims behind it.
    fn close(&mut self) -> bool {
        let first = !self.closed;
        self.closed = true;
        first
    }

    /// What one cycle adds.
    fn add(&self) -> u64 {
        self.version.wrapping_add(2)
    }

    /// Whether the start is 0, and the end of each joined link is its start and one cycle more.
    fn is_true(&self) -> bool {
        for at in 0..8 {
            let end = self.marks[at].wrapping_add(self.add());
            if self.links[at] == Link::Joined && self.marks[at + 1] != end {
                return false;
            }
        }
        self.marks[0] == 0
    }

    /// How many joined links lead, where not all are joined.
    fn settled_to(&self) -> Option<u64> {
        for at in 0..8 {
            if self.links[at] != Link::Joined {
                return Some(at as u64);
            }
        }
        None
    }

    fn open(&mut self, version: u64) -> bool {
        let right = self.version == 0 && version == 1;
        self.version = version;
        right
    }

    /// All eight cycles at once, before any reload.
    fn run(&mut self, n: u64) -> bool {
        self.simulate(0);
        self.version == 1 && n == 8
    }

    /// The marks behind this one are simulated from it.
    fn simulate(&mut self, from: usize) {
        for at in 0..8 {
            if at >= from {
                self.marks[at + 1] = self.marks[at].wrapping_add(self.add());
                self.links[at] = Link::Joined;
            }
        }
    }

    fn reload(&mut self, version: u64, from: u64) -> bool {
        let right = version == self.version.wrapping_add(1) && from == 7;
        self.version = version;
        self.links = [Link::Open; 8];
        self.simulate(7);
        right
    }

    /// The first link that this one takes is out with a new ticket: a worker takes an open one, the session one that isn't joined.
    fn claim(&mut self, ticket: u64, a: u64, b: u64, by: Who) -> bool {
        if self.closed {
            return false;
        }
        for link in 0..8 {
            let now = self.links[link];
            if now == Link::Open || (by == Who::Session && now != Link::Joined) {
                self.links[link] = Link::Out(ticket);
                let drawn = Drawn {
                    version: self.version,
                    link,
                    start: self.marks[link],
                    by,
                    out: true,
                };
                let number = self.tickets.len() as u64 + 1;
                let room = self.tickets.push(drawn).is_ok();
                return room && ticket == number && a == link as u64 && b == link as u64 + 1;
            }
        }
        false
    }

    /// The ticket of this number, which is then used up.
    fn use_up(&mut self, ticket: u64) -> Option<Drawn> {
        if ticket == 0 || ticket > self.tickets.len() as u64 {
            return None;
        }
        let index = ticket as usize - 1;
        let drawn = self.tickets[index];
        self.tickets[index].out = false;
        Some(drawn)
    }

    /// The link is joined exactly where version and start are still the ticket's.
    fn install(&mut self, ticket: u64, joined: bool, by: Who) -> bool {
        let Some(drawn) = self.use_up(ticket) else {
            return false;
        };
        let at = drawn.link;
        if at >= 8 || !drawn.out || drawn.by != by {
            return false;
        }
        let current = drawn.version == self.version && drawn.start == self.marks[at];
        if current {
            self.join(at);
        }
        current == joined
    }

    /// The link is joined. Where its end changes, the next one opens.
    fn join(&mut self, at: usize) {
        if at >= 8 {
            return;
        }
        let end = self.marks[at].wrapping_add(self.add());
        self.links[at] = Link::Joined;
        if self.marks[at + 1] != end {
            self.marks[at + 1] = end;
            if at < 7 {
                self.links[at + 1] = Link::Open;
            }
        }
    }

    /// The link that is out with the ticket opens.
    fn release(&mut self, ticket: u64, by: Who) -> bool {
        let Some(drawn) = self.use_up(ticket) else {
            return false;
        };
        for at in 0..8 {
            if self.links[at] == Link::Out(ticket) {
                self.links[at] = Link::Open;
            }
        }
        drawn.out && drawn.by == by
    }
}
