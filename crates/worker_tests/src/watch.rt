// What a watched machine does as a run begins.
use std::alloc::Global;
use std::sync::Arc;
use std::sync::atomic::{AtomicBool, Ordering};
use test_gates::{HoldingGate, Meeting};

/// What a run does first that begins at one of the cycles 0 to 6: nothing; once, from cycle 0, it wants memory; it reaches a meeting; or
/// it has a gate let its tickets go, and waits until another one comes there.
#[derive(Drop)]
pub enum Watch {
    Nothing,
    Refuses(AtomicBool),
    Meets(Arc<Meeting, Global>),
    LetsGo(Arc<HoldingGate, Global>),
}

impl Watch {
    /// Once, from cycle 0, wants memory.
    pub fn refuses_once() -> Watch {
        Watch::Refuses(AtomicBool::new(true))
    }

    /// A run begins at this cycle: whether it has memory.
    pub fn begin(&self, cycle: u64) -> bool {
        if cycle > 6 {
            return true;
        }
        match self {
            Watch::Nothing => {}
            Watch::Refuses(next) => return cycle > 0 || !next.swap(false, Ordering::SeqCst),
            Watch::Meets(meeting) => meeting.reach(cycle + 1),
            Watch::LetsGo(holding) => holding.let_go(),
        }
        true
    }
}
