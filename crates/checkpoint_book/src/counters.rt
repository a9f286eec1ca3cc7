// How many entries and tickets a book has counted.
ghost use Rattle.std.specs.Prelude.{◌≡◌};
ghost use Rattle.checkpoint_book.specs.Counts.{IsSmall, drew_by, used_by, one_more};

use book_history::who::Who;

/// `session` and `workers` count entries, `drawn` tickets, and `out` the workers' tickets that are not used up.
#[derive(Clone, Copy)]
pub struct Counters {
    pub(crate) session: u64,
    pub(crate) workers: u64,
    pub(crate) drawn: u64,
    pub(crate) out: u64,
    pub(crate) closed: bool,
}

/// The counters after a claim that drew a ticket.
pub fn drew(n: Counters, by: Who) -> Counters
    requires { IsSmall n }
    ensures { result ≡ drew_by by n }
{
    match by {
        Who::Session => Counters {
            session: n.session + 1,
            workers: n.workers,
            drawn: n.drawn + 1,
            out: n.out,
            closed: n.closed,
        },
        Who::Worker(_) => Counters {
            session: n.session,
            workers: n.workers + 1,
            drawn: n.drawn + 1,
            out: n.out + 1,
            closed: n.closed,
        },
    }
}

/// The counters after an install or a release.
pub fn used(n: Counters, by: Who) -> Counters
    requires { IsSmall n }
    ensures { result ≡ used_by by n }
{
    match by {
        Who::Session => Counters {
            session: n.session + 1,
            workers: n.workers,
            drawn: n.drawn,
            out: n.out,
            closed: n.closed,
        },
        Who::Worker(_) => Counters {
            session: n.session,
            workers: n.workers + 1,
            drawn: n.drawn,
            out: n.out.saturating_sub(1),
            closed: n.closed,
        },
    }
}

/// The counters after another entry of the session.
pub fn one_of_session(n: Counters) -> Counters
    requires { IsSmall n }
    ensures { result ≡ one_more n }
{
    Counters {
        session: n.session + 1,
        workers: n.workers,
        drawn: n.drawn,
        out: n.out,
        closed: n.closed,
    }
}
