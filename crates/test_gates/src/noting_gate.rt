// A gate that notes which tickets come.
use ls_port::{Gate, GateStep};
use std::sync::atomic::{AtomicBool, AtomicU64, Ordering};

/// Notes each ticket below 64 that comes to its verification, and to its install or release, and holds nobody.
#[derive(Drop)]
pub struct NotingGate {
    verified: AtomicU64,
    handed_in: AtomicU64,
    mixed_up: AtomicBool,
}

impl NotingGate {
    /// No ticket has come yet.
    pub fn new() -> NotingGate {
        NotingGate {
            verified: AtomicU64::new(0),
            handed_in: AtomicU64::new(0),
            mixed_up: AtomicBool::new(false),
        }
    }

    /// Whether this ticket, below 64, came to its verification, and later to its install or release.
    pub fn noted(&self, ticket: u64) -> bool {
        has(self.handed_in.load(Ordering::SeqCst), ticket)
    }

    /// Whether a ticket came twice to a step, or to its install without a verification, or was none below 64.
    pub fn mixed_up(&self) -> bool {
        self.mixed_up.load(Ordering::SeqCst)
    }

    /// Notes what may not be.
    fn mix_up(&self) {
        self.mixed_up.store(true, Ordering::SeqCst);
    }
}

/// The bit of a ticket below 64, or none.
fn bit(ticket: u64) -> u64 {
    if ticket < 64 { 1 << ticket } else { 0 }
}

/// Whether a ticket is in a set.
fn has(set: u64, ticket: u64) -> bool {
    set & bit(ticket) != 0
}

/// Adds a ticket to a set: whether it was new.
fn add(set: &AtomicU64, ticket: u64) -> bool {
    let old = set.fetch_or(bit(ticket), Ordering::SeqCst);
    ticket < 64 && !has(old, ticket)
}

impl Gate for NotingGate {
    fn before(&self, ticket: u64, step: GateStep) {
        let right = match step {
            GateStep::Verify => add(&self.verified, ticket),
            GateStep::Install => {
                has(self.verified.load(Ordering::SeqCst), ticket) && add(&self.handed_in, ticket)
            }
        };
        if !right {
            self.mix_up();
        }
    }
}
