// Replies to commands.
use crate::unit_lines::UnitLines;

/// What is answered to a command, but for refusals, and for the table that follows the line of a `show`.
#[derive(Debug, Drop)]
pub enum ReplyKind {
    /// An edit that is accepted: its version, the units that were built for it and those that were kept, and the cycle that its state
    /// comes from.
    Edit {
        version: u64,
        built: u32,
        kept: u32,
        from: u64,
    },
    Set,
    Quit,
    /// A run that ended at this cycle.
    Run {
        cycle: u64,
    },
    ShowSettled {
        cycle: u64,
        version: u64,
    },
    /// A display whose table is an estimate: all is settled up to a cycle before.
    ShowEstimate {
        cycle: u64,
        version: u64,
        settled_to: u64,
    },
    Settled {
        cycle: u64,
        version: u64,
    },
    Unsettled {
        settled_to: u64,
    },
    Status {
        version: u64,
        cycle: u64,
        marks: u32,
        units: UnitLines,
    },
}
