// Whether a history is over.
use book_history::entry::Entry;
use book_history::history::History;
use book_history::who::Who;
use cycle_eval::Design;

// Whether the last entry is a close, but for ends of workers' tickets.
fn is_closed(entries: &[Entry]) -> bool {
    let mut is_closed = false;
    for entry in entries {
        is_closed = match *entry {
            Entry::Close => true,
            Entry::Install { by, .. } => is_closed && by != Who::Session,
            Entry::Release { by, .. } => is_closed && by != Who::Session,
            _ => false,
        };
    }
    is_closed
}

// How many installs and releases use a ticket up.
fn ends_of(entries: &[Entry], ticket: u64) -> u64 {
    let mut count = 0u64;
    for entry in entries {
        let is_end = match *entry {
            Entry::Install { ticket: used, .. } => used == ticket,
            Entry::Release { ticket: used, .. } => used == ticket,
            _ => false,
        };
        if is_end {
            count = count.saturating_add(1);
        }
    }
    count
}

/// Whether these entries end with a close, but for ends of workers' tickets, and each claimed ticket has one end.
pub fn are_over(entries: &[Entry]) -> bool {
    for entry in entries {
        if let Entry::Claim { ticket, .. } = *entry {
            if ends_of(entries, ticket) != 1 {
                return false;
            }
        }
    }
    is_closed(entries)
}

/// Whether a history is over: a close is its last entry, but for installs and releases of workers, and no ticket is out, as each claim has one install or
/// release of its ticket. For each claim it walks over all entries.
pub fn is_over(history: &History<Design>) -> bool {
    are_over(history.entries())
}
