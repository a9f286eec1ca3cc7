// Waiting that ends.
use std::sync::atomic::{AtomicBool, AtomicU64, Ordering};
use std::thread::yield_now;

/// How many turns of others somebody waits at most.
pub const PATIENCE: u64 = 1_000_000_000;

/// Lets others run so many times.
pub fn rest(turns: u64) {
    for _ in 0..turns {
        yield_now();
    }
}

/// Whether a flag is raised within 1,000,000,000 turns.
pub fn sees(flag: &AtomicBool) -> bool {
    for _ in 0..PATIENCE {
        if flag.load(Ordering::SeqCst) {
            return true;
        }
        yield_now();
    }
    false
}

/// Whether a count comes to this number within 1,000,000,000 turns.
pub fn counts(count: &AtomicU64, number: u64) -> bool {
    for _ in 0..PATIENCE {
        if count.load(Ordering::SeqCst) >= number {
            return true;
        }
        yield_now();
    }
    false
}
