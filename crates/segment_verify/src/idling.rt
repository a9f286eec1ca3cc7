// What a worker does while it has nothing to do.
use crossbeam_utils::Backoff;
use std::sync::Wait;
use std::thread::Parker;
use std::time::Duration;

/// How long an idle worker sleeps before it claims again, in milliseconds.
const NAP: u64 = 5;

/// A worker that finds nothing to do. At first it goes on at once, then it yields the processor, and once that has gone on for long it sleeps.
#[derive(Drop)]
pub(crate) struct Idling {
    backoff: Backoff,
    parker: Parker,
}

impl Idling {
    pub(crate) fn new() -> Idling {
        Idling {
            backoff: Backoff::new(),
            parker: Parker::new(),
        }
    }

    /// There was something to do.
    pub(crate) fn reset(&self) {
        self.backoff.reset();
    }

    /// There was nothing to do. It may come back early.
    pub(crate) fn rest<R: Wait>(&self, rt: &R) {
        if self.backoff.is_completed() {
            self.parker.park_timeout(rt, Duration::from_millis(NAP));
        } else {
            self.backoff.snooze();
        }
    }
}
