// An entry of a history.
use crate::who::Who;

/// What happened, with the book's answer. Cycles `a` and `b` are those of the link that a claim took, `from` is the
/// cycle that a reload chose, and `settled_to` is None where all links were joined.
#[derive(Clone, Copy, Debug, PartialEq, Eq)]
pub enum Entry {
    Open {
        version: u64,
    },
    Run {
        n: u64,
    },
    Reload {
        version: u64,
        from: u64,
    },
    Claim {
        ticket: u64,
        a: u64,
        b: u64,
        by: Who,
    },
    Install {
        ticket: u64,
        joined: bool,
        by: Who,
    },
    Release {
        ticket: u64,
        by: Who,
    },
    Show {
        settled_to: Option<u64>,
    },
    Close,
}
