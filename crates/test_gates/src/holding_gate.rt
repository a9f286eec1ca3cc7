// A gate that holds the first tickets until it is told to let them go.
use crate::patience::{counts, rest, sees};
use ls_port::{Gate, GateStep};
use std::sync::atomic::{AtomicBool, AtomicU64, Ordering};

/// Holds each of the first tickets right before its verification until it lets go, so as many threads hold one each. A ticket behind these
/// rests a while there, so that what the thread that let go does next comes first, in most schedules.
#[derive(Drop)]
pub struct HoldingGate {
    most: u64,
    held: AtomicU64,
    behind: AtomicU64,
    lets_go: AtomicBool,
    missed: AtomicBool,
}

impl HoldingGate {
    /// A gate for the tickets from 1 to this one, none of which has come yet.
    pub fn new(most: u64) -> HoldingGate {
        HoldingGate {
            most,
            held: AtomicU64::new(0),
            behind: AtomicU64::new(0),
            lets_go: AtomicBool::new(false),
            missed: AtomicBool::new(false),
        }
    }

    /// Waits until all these tickets are held.
    pub fn await_all(&self) {
        if !counts(&self.held, self.most) {
            self.missed.store(true, Ordering::SeqCst);
        }
    }

    /// Once all are held, lets them go, and waits until another ticket comes: so the book was open, and nobody had it. Only the first call
    /// does so.
    pub fn let_go(&self) {
        if self.lets_go.load(Ordering::SeqCst) {
            return;
        }
        self.await_all();
        self.lets_go.store(true, Ordering::SeqCst);
        if !counts(&self.behind, 1) {
            self.missed.store(true, Ordering::SeqCst);
        }
    }

    /// Whether all were held, the gate let go, and nobody waited to the limit.
    pub fn has_let_go(&self) -> bool {
        self.lets_go.load(Ordering::SeqCst) && !self.missed.load(Ordering::SeqCst)
    }

    /// Holds the thread that comes until the gate lets go.
    fn hold(&self) {
        self.held.fetch_add(1, Ordering::SeqCst);
        if !sees(&self.lets_go) {
            self.missed.store(true, Ordering::SeqCst);
        }
    }
}

impl Gate for HoldingGate {
    fn before(&self, ticket: u64, step: GateStep) {
        if step == GateStep::Install {
            return;
        }
        if ticket <= self.most {
            self.hold();
            return;
        }
        self.behind.fetch_add(1, Ordering::SeqCst);
        rest(10000);
    }
}
