// How many entries there are, against the rooms of a history.
use book_history::entry::Entry;
use book_history::rooms::Rooms;
use book_history::who::Who;

/// The entries of the session and those of workers, the workers' tickets that are out, and whether a close came.
#[derive(Clone, Copy, Debug, PartialEq, Eq)]
pub struct Counts {
    pub session: u64,
    pub workers: u64,
    pub out: u64,
    pub is_closed: bool,
}

impl Counts {
    /// No entry yet.
    pub fn none() -> Counts {
        Counts {
            session: 0,
            workers: 0,
            out: 0,
            is_closed: false,
        }
    }

    /// One entry more. The answer is whether it has room: an entry of the session in its own, a claim of a worker with a place for its end beside those of the
    /// tickets that are out, and one close. No claim follows a close.
    pub fn take(&mut self, entry: Entry, rooms: Rooms) -> bool {
        match entry {
            Entry::Claim { by, .. } => self.claim(by, rooms) && !self.is_closed,
            Entry::Install { by, .. } => self.end(by, rooms),
            Entry::Release { by, .. } => self.end(by, rooms),
            Entry::Close => self.close(),
            _ => self.by_session(rooms),
        }
    }

    fn by_session(&mut self, rooms: Rooms) -> bool {
        self.session = self.session.saturating_add(1);
        self.session <= u64::from(rooms.session)
    }

    fn claim(&mut self, by: Who, rooms: Rooms) -> bool {
        if by == Who::Session {
            return self.by_session(rooms);
        }
        self.workers = self.workers.saturating_add(1);
        self.out = self.out.saturating_add(1);
        self.workers.saturating_add(self.out) <= u64::from(rooms.workers)
    }

    // A ticket is used up. The place for a worker's was kept by its claim.
    fn end(&mut self, by: Who, rooms: Rooms) -> bool {
        if by == Who::Session {
            return self.by_session(rooms);
        }
        self.workers = self.workers.saturating_add(1);
        self.out = self.out.saturating_sub(1);
        true
    }

    fn close(&mut self) -> bool {
        let was_closed = self.is_closed;
        self.is_closed = true;
        !was_closed
    }
}
