// What entries tell of who did what.
use book_history::entry::Entry;
use book_history::who::Who;

/// How often this ticket was installed.
pub fn installs(entries: &[Entry], number: u64) -> usize {
    entries
        .iter()
        .filter(|entry| matches!(entry, Entry::Install { ticket, .. } if *ticket == number))
        .count()
}

/// How many tickets one drew.
pub fn claims(entries: &[Entry], who: Who) -> usize {
    entries
        .iter()
        .filter(|entry| matches!(entry, Entry::Claim { by, .. } if *by == who))
        .count()
}

/// How many tickets were drawn, by all.
pub fn tickets(entries: &[Entry]) -> usize {
    entries
        .iter()
        .filter(|entry| matches!(entry, Entry::Claim { .. }))
        .count()
}

/// Whether this ticket was drawn by that one.
pub fn drew(entries: &[Entry], number: u64, who: Who) -> bool {
    entries.iter().any(
        |entry| matches!(entry, Entry::Claim { ticket, by, .. } if *ticket == number && *by == who),
    )
}
