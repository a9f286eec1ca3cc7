// What a thread does while another one has the book.
use crossbeam_utils::Backoff;
use std::sync::Wait;
use std::thread::Parker;
use std::time::Duration;

/// How often a thread goes on at once or yields the processor before it sleeps.
const YIELDS: u32 = 1_000;

/// How long it sleeps before it tries again, in milliseconds.
const NAP: u64 = 1;

/// A thread that waits for the book. At first it tries again at once, then it yields the processor, and once that has gone on for long it sleeps.
#[derive(Drop)]
pub(crate) struct Waiting {
    backoff: Backoff,
    parker: Parker,
    yields: u32,
}

impl Waiting {
    pub(crate) fn new() -> Waiting {
        Waiting {
            backoff: Backoff::new(),
            parker: Parker::new(),
            yields: 0,
        }
    }

    /// Another one has the book. It may come back early.
    pub(crate) fn rest<R: Wait>(&mut self, rt: &R) {
        if self.yields < YIELDS {
            self.backoff.snooze();
            self.yields += 1;
        } else {
            self.parker.park_timeout(rt, Duration::from_millis(NAP));
        }
    }
}
