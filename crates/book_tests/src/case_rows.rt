// Books of the machine that adds: steps whose marks and answers are worked by hand.
use crate::book_answer::BookAnswer;
use crate::book_answer::BookAnswer::{AllJoined, Chosen, Done, Drawn, HandedIn, Is, Nothing, Told};
use crate::book_case::BookCase;
use crate::book_step::BookStep::{
    Close, Cycle, GiveUp, HandIn, Last, Links, Marks, Reload, Run, RunChanging, Show, Take, Version,
};
use crate::place::Place::{First, Second};
use book_history::rooms::Rooms;
use book_history::who::Who::{Session, Worker};
use checkpoint_book::installed::Installed;
use checkpoint_book::shown::Shown;
use checkpoint_book::why::Why;

pub const ROOMS: Rooms = Rooms {
    session: 100,
    workers: 100,
};

/// Room for four entries of workers.
const FOUR: Rooms = Rooms {
    session: 100,
    workers: 4,
};

/// What an install of a current ticket answers.
pub const JOINED: BookAnswer = HandedIn(Installed::Joined);

pub const CASES: &[BookCase] = &[
    BookCase {
        name: "rows that change: 4, 8, 12, 25, 38 with 3; the cycles 2 and 3 are one link",
        interval: 2,
        lookback: 1,
        rooms: ROOMS,
        rows: &[
            (RunChanging, Done),
            (Last, Is(38)),
            (Marks, Is(4)),
            // With 4: 25 + 14 at first, and then 5, 10, 15, 29, 43 from reset.
            (Reload(4), Chosen(4)),
            (Last, Is(39)),
            (Take(Session, First), Drawn(1, 0, 2, 0)),
            (HandIn(First), JOINED),
            (Take(Session, First), Drawn(2, 2, 4, 10)),
            (HandIn(First), JOINED),
            (Take(Session, First), Drawn(3, 4, 5, 29)),
            (HandIn(First), JOINED),
            (Last, Is(43)),
            (Show, Told(Shown::Settled)),
        ],
    },
    BookCase {
        name: "without a lookback every mark is carried over, and each link is verified",
        interval: 2,
        lookback: 0,
        rooms: ROOMS,
        rows: &[
            (Run(5), Done),
            (Reload(4), Chosen(5)),
            (Last, Is(15)),
            (Marks, Is(4)),
            (Show, Told(Shown::Estimate { settled_to: 0 })),
            (Take(Session, First), Drawn(1, 0, 2, 0)),
            (HandIn(First), JOINED),
            (Take(Session, First), Drawn(2, 2, 4, 8)),
            (HandIn(First), JOINED),
            (Take(Session, First), Drawn(3, 4, 5, 16)),
            (HandIn(First), JOINED),
            (Last, Is(20)),
            (Show, Told(Shown::Settled)),
        ],
    },
    BookCase {
        name: "a lookback of more than all cycles simulates them all",
        interval: 2,
        lookback: 10,
        rooms: ROOMS,
        rows: &[
            (Run(5), Done),
            (Reload(4), Chosen(0)),
            (Last, Is(20)),
            (Show, Told(Shown::Settled)),
            (Take(Session, First), AllJoined),
        ],
    },
    BookCase {
        name: "a reload before the first cycle",
        interval: 2,
        lookback: 1,
        rooms: ROOMS,
        rows: &[
            (Reload(4), Chosen(0)),
            (Marks, Is(1)),
            (Links, Is(0)),
            (Show, Told(Shown::Settled)),
            (Run(5), Done),
            (Last, Is(20)),
            (Show, Told(Shown::Settled)),
        ],
    },
    BookCase {
        name: "two runs with marks at 0, 1, .. 6",
        interval: 1,
        lookback: 1,
        rooms: ROOMS,
        rows: &[
            (Run(3), Done),
            (Run(3), Done),
            (Marks, Is(7)),
            (Last, Is(18)),
            (Reload(4), Chosen(5)),
            (Take(Worker(1), First), Drawn(1, 0, 1, 0)),
        ],
    },
    BookCase {
        name: "two runs with marks at 0, 2, 3, 4, 6",
        interval: 2,
        lookback: 1,
        rooms: ROOMS,
        rows: &[
            (Run(3), Done),
            (Run(3), Done),
            (Marks, Is(5)),
            (Last, Is(18)),
            (Reload(4), Chosen(4)),
            (Take(Worker(1), First), Drawn(1, 0, 2, 0)),
        ],
    },
    BookCase {
        name: "two runs with marks at 0, 3, 6",
        interval: 3,
        lookback: 1,
        rooms: ROOMS,
        rows: &[
            (Run(3), Done),
            (Run(3), Done),
            (Marks, Is(3)),
            (Last, Is(18)),
            (Reload(4), Chosen(3)),
            (Take(Worker(1), First), Drawn(1, 0, 3, 0)),
        ],
    },
    BookCase {
        name: "two runs with marks at 0, 3, 4, 6",
        interval: 4,
        lookback: 1,
        rooms: ROOMS,
        rows: &[
            (Run(3), Done),
            (Run(3), Done),
            (Marks, Is(4)),
            (Last, Is(18)),
            (Reload(4), Chosen(4)),
            (Take(Worker(1), First), Drawn(1, 0, 3, 0)),
        ],
    },
    BookCase {
        name: "two runs with marks at 0, 3, 6",
        interval: 7,
        lookback: 1,
        rooms: ROOMS,
        rows: &[
            (Run(3), Done),
            (Run(3), Done),
            (Marks, Is(3)),
            (Last, Is(18)),
            (Reload(4), Chosen(3)),
            (Take(Worker(1), First), Drawn(1, 0, 3, 0)),
        ],
    },
    BookCase {
        name: "one mark too many: every other one goes, and a link that is out with its neighbour is open",
        interval: 1,
        lookback: 1,
        rooms: ROOMS,
        rows: &[
            (Run(1023), Done),
            (Marks, Is(1024)),
            (Show, Told(Shown::Settled)),
            (Reload(4), Chosen(1022)),
            (Take(Worker(1), First), Drawn(1, 0, 1, 0)),
            (Run(1), Done),
            (Marks, Is(513)),
            (Cycle, Is(1024)),
            (Take(Worker(1), Second), Drawn(2, 0, 2, 0)),
        ],
    },
    BookCase {
        name: "a room of four entries: two claims and the ends of their tickets",
        interval: 2,
        lookback: 1,
        rooms: FOUR,
        rows: &[
            (Run(5), Done),
            (Reload(4), Chosen(4)),
            (Take(Worker(7), First), Drawn(1, 0, 2, 0)),
            // The mark at 2 is still the older machine's.
            (Take(Worker(8), Second), Drawn(2, 2, 4, 6)),
            (Take(Worker(7), Second), Nothing(true, false)),
            // The session takes a link that is out.
            (Take(Session, First), Drawn(3, 0, 2, 0)),
            (HandIn(First), JOINED),
        ],
    },
    BookCase {
        name: "a worker gives a link up and then settles link by link",
        interval: 2,
        lookback: 1,
        rooms: ROOMS,
        rows: &[
            (Run(5), Done),
            (Reload(4), Chosen(4)),
            (Take(Worker(7), First), Drawn(1, 0, 2, 0)),
            (GiveUp(First), Done),
            (Take(Worker(8), First), Drawn(2, 0, 2, 0)),
            (HandIn(First), JOINED),
            (Take(Worker(8), First), Drawn(3, 2, 4, 8)),
            (HandIn(First), JOINED),
            (Take(Worker(8), First), Drawn(4, 4, 5, 16)),
            (HandIn(First), JOINED),
            (Last, Is(20)),
            (Show, Told(Shown::Settled)),
            (Take(Worker(7), First), Nothing(false, false)),
            (Close, Done),
            (Take(Worker(7), First), Nothing(false, true)),
        ],
    },
    BookCase {
        name: "the session claims the same link twice, and the second result changes nothing",
        interval: 2,
        lookback: 1,
        rooms: ROOMS,
        rows: &[
            (Run(5), Done),
            (Reload(4), Chosen(4)),
            (Take(Session, First), Drawn(1, 0, 2, 0)),
            (Take(Session, Second), Drawn(2, 0, 2, 0)),
            (HandIn(First), JOINED),
            (Show, Told(Shown::Estimate { settled_to: 2 })),
            (HandIn(Second), JOINED),
            (Marks, Is(4)),
            (Links, Is(3)),
            (Last, Is(16)),
            (Show, Told(Shown::Estimate { settled_to: 2 })),
            (Take(Session, First), Drawn(3, 2, 4, 8)),
            (HandIn(First), JOINED),
        ],
    },
    BookCase {
        name: "a ticket that is held across a reload comes back stale",
        interval: 2,
        lookback: 1,
        rooms: ROOMS,
        rows: &[
            (Run(5), Done),
            (Reload(4), Chosen(4)),
            (Take(Session, First), Drawn(1, 0, 2, 0)),
            (Reload(5), Chosen(4)),
            (
                HandIn(First),
                HandedIn(Installed::Stale {
                    ticket_version: 2,
                    book_version: 3,
                    why: Why::Version,
                }),
            ),
            (Version, Is(3)),
            (Marks, Is(4)),
            (Last, Is(17)),
            (Show, Told(Shown::Estimate { settled_to: 0 })),
        ],
    },
    BookCase {
        name: "a ticket whose link is merged by thinning comes back stale",
        interval: 1,
        lookback: 1,
        rooms: ROOMS,
        rows: &[
            (Run(1023), Done),
            (Marks, Is(1024)),
            (Reload(4), Chosen(1022)),
            (Take(Worker(1), First), Drawn(1, 0, 1, 0)),
            (Run(1), Done),
            (Marks, Is(513)),
            (
                HandIn(First),
                HandedIn(Installed::Stale {
                    ticket_version: 2,
                    book_version: 2,
                    why: Why::Link,
                }),
            ),
            // The first link is open, and its mark at 2 is still the older machine's.
            (Take(Session, First), Drawn(2, 0, 2, 0)),
            (HandIn(First), JOINED),
        ],
    },
    BookCase {
        name: "two claims and two installs fill a room of four entries",
        interval: 2,
        lookback: 0,
        rooms: FOUR,
        rows: &[
            (Run(5), Done),
            (Reload(4), Chosen(5)),
            (Take(Worker(7), First), Drawn(1, 0, 2, 0)),
            (Take(Worker(8), Second), Drawn(2, 2, 4, 6)),
            // The third link is open, and no claim takes it.
            (Take(Worker(9), First), Nothing(true, false)),
            // From 6 two cycles lead to 14 and not to 12, and the first ticket then opens that link again.
            (HandIn(Second), JOINED),
            (Take(Worker(9), Second), Nothing(true, false)),
            (HandIn(First), JOINED),
            (Take(Worker(9), First), Nothing(true, false)),
            (Show, Told(Shown::Estimate { settled_to: 2 })),
        ],
    },
    BookCase {
        name: "the session gives a ticket up, and its link is open again",
        interval: 2,
        lookback: 1,
        rooms: ROOMS,
        rows: &[
            (Run(5), Done),
            (Reload(4), Chosen(4)),
            (Take(Session, First), Drawn(1, 0, 2, 0)),
            (GiveUp(First), Done),
            (Marks, Is(4)),
            (Last, Is(16)),
            // A worker takes open links alone.
            (Take(Worker(7), First), Drawn(2, 0, 2, 0)),
        ],
    },
];
