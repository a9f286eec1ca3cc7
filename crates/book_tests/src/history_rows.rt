// Books of the machine that adds, with the whole history that their steps make, worked by hand.
use crate::book_answer::BookAnswer::{AllJoined, Chosen, Done, Drawn, HandedIn, Is, Nothing, Told};
use crate::book_case::BookCase;
use crate::book_step::BookStep::{
    Close, Cycle, GiveUp, HandIn, Last, Links, Marks, Reload, Room, Run, Show, Take, Version,
};
use crate::case_rows::{JOINED, ROOMS};
use crate::place::Place::{First, Second};
use book_history::entry::Entry;
use book_history::who::Who::{Session, Worker};
use checkpoint_book::installed::Installed;
use checkpoint_book::shown::Shown;
use checkpoint_book::why::Why;

/// A case, and all entries of its history.
pub const HISTORIES: &[(BookCase, &[Entry])] = &[
    (
        BookCase {
            name: "five cycles with 3, a reload with 4, and then link by link",
            interval: 2,
            lookback: 1,
            rooms: ROOMS,
            rows: &[
                (Run(5), Done),
                (Last, Is(15)),
                (Cycle, Is(5)),
                (Marks, Is(4)),
                (Links, Is(3)),
                (Show, Told(Shown::Settled)),
                (Reload(4), Chosen(4)),
                (Last, Is(16)),
                (Take(Session, First), Drawn(1, 0, 2, 0)),
                (HandIn(First), JOINED),
                (Take(Session, First), Drawn(2, 2, 4, 8)),
                (HandIn(First), JOINED),
                (Show, Told(Shown::Estimate { settled_to: 4 })),
                (Take(Session, First), Drawn(3, 4, 5, 16)),
                (HandIn(First), JOINED),
                (Last, Is(20)),
                (Show, Told(Shown::Settled)),
                (Room, Is(88)),
                (Take(Session, First), AllJoined),
                (Room, Is(88)),
                (Version, Is(2)),
                (Close, Done),
            ],
        },
        &[
            Entry::Open { version: 1 },
            Entry::Run { n: 5 },
            Entry::Show { settled_to: None },
            Entry::Reload {
                version: 2,
                from: 4,
            },
            Entry::Claim {
                ticket: 1,
                a: 0,
                b: 2,
                by: Session,
            },
            Entry::Install {
                ticket: 1,
                joined: true,
                by: Session,
            },
            Entry::Claim {
                ticket: 2,
                a: 2,
                b: 4,
                by: Session,
            },
            Entry::Install {
                ticket: 2,
                joined: true,
                by: Session,
            },
            Entry::Show {
                settled_to: Some(4),
            },
            Entry::Claim {
                ticket: 3,
                a: 4,
                b: 5,
                by: Session,
            },
            Entry::Install {
                ticket: 3,
                joined: true,
                by: Session,
            },
            Entry::Show { settled_to: None },
            Entry::Close,
        ],
    ),
    (
        BookCase {
            name: "three of the machines that add, and a worker whose results come late",
            interval: 2,
            lookback: 1,
            rooms: ROOMS,
            rows: &[
                (Run(5), Done),
                (Marks, Is(4)),
                (Last, Is(15)),
                (Take(Worker(1), First), Nothing(false, false)),
                (Reload(4), Chosen(4)),
                (Last, Is(16)),
                (Take(Worker(1), First), Drawn(1, 0, 2, 0)),
                (Reload(5), Chosen(4)),
                (
                    HandIn(First),
                    HandedIn(Installed::Stale {
                        ticket_version: 2,
                        book_version: 3,
                        why: Why::Version,
                    }),
                ),
                (Marks, Is(4)),
                (Last, Is(17)),
                // Marks 0, 6, 12 and 17 at the cycles 0, 2, 4 and 5 under a machine that adds 5, link by link.
                (Take(Worker(1), First), Drawn(2, 0, 2, 0)),
                (Take(Worker(1), Second), Drawn(3, 2, 4, 6)),
                (HandIn(First), JOINED),
                (
                    HandIn(Second),
                    HandedIn(Installed::Stale {
                        ticket_version: 3,
                        book_version: 3,
                        why: Why::Start,
                    }),
                ),
                (Take(Worker(1), First), Drawn(4, 2, 4, 10)),
                (GiveUp(First), Done),
                (Take(Worker(1), First), Drawn(5, 2, 4, 10)),
                (HandIn(First), JOINED),
                (Show, Told(Shown::Estimate { settled_to: 4 })),
                (Take(Worker(1), First), Drawn(6, 4, 5, 20)),
                (HandIn(First), JOINED),
                (Last, Is(25)),
                (Show, Told(Shown::Settled)),
            ],
        },
        &[
            Entry::Open { version: 1 },
            Entry::Run { n: 5 },
            Entry::Reload {
                version: 2,
                from: 4,
            },
            Entry::Claim {
                ticket: 1,
                a: 0,
                b: 2,
                by: Worker(1),
            },
            Entry::Reload {
                version: 3,
                from: 4,
            },
            Entry::Install {
                ticket: 1,
                joined: false,
                by: Worker(1),
            },
            Entry::Claim {
                ticket: 2,
                a: 0,
                b: 2,
                by: Worker(1),
            },
            Entry::Claim {
                ticket: 3,
                a: 2,
                b: 4,
                by: Worker(1),
            },
            Entry::Install {
                ticket: 2,
                joined: true,
                by: Worker(1),
            },
            Entry::Install {
                ticket: 3,
                joined: false,
                by: Worker(1),
            },
            Entry::Claim {
                ticket: 4,
                a: 2,
                b: 4,
                by: Worker(1),
            },
            Entry::Release {
                ticket: 4,
                by: Worker(1),
            },
            Entry::Claim {
                ticket: 5,
                a: 2,
                b: 4,
                by: Worker(1),
            },
            Entry::Install {
                ticket: 5,
                joined: true,
                by: Worker(1),
            },
            Entry::Show {
                settled_to: Some(4),
            },
            Entry::Claim {
                ticket: 6,
                a: 4,
                b: 5,
                by: Worker(1),
            },
            Entry::Install {
                ticket: 6,
                joined: true,
                by: Worker(1),
            },
            Entry::Show { settled_to: None },
        ],
    ),
    (
        BookCase {
            name: "installs go on after a close",
            interval: 2,
            lookback: 1,
            rooms: ROOMS,
            rows: &[
                (Run(5), Done),
                (Reload(4), Chosen(4)),
                (Take(Worker(7), First), Drawn(1, 0, 2, 0)),
                (Close, Done),
                (HandIn(First), JOINED),
                (Take(Worker(7), First), Nothing(false, true)),
            ],
        },
        &[
            Entry::Open { version: 1 },
            Entry::Run { n: 5 },
            Entry::Reload {
                version: 2,
                from: 4,
            },
            Entry::Claim {
                ticket: 1,
                a: 0,
                b: 2,
                by: Worker(7),
            },
            Entry::Close,
            Entry::Install {
                ticket: 1,
                joined: true,
                by: Worker(7),
            },
        ],
    ),
    (
        BookCase {
            name: "releases go on after a close",
            interval: 2,
            lookback: 1,
            rooms: ROOMS,
            rows: &[
                (Run(5), Done),
                (Reload(4), Chosen(4)),
                (Take(Worker(7), First), Drawn(1, 0, 2, 0)),
                (Close, Done),
                (GiveUp(First), Done),
                (Take(Worker(7), First), Nothing(false, true)),
            ],
        },
        &[
            Entry::Open { version: 1 },
            Entry::Run { n: 5 },
            Entry::Reload {
                version: 2,
                from: 4,
            },
            Entry::Claim {
                ticket: 1,
                a: 0,
                b: 2,
                by: Worker(7),
            },
            Entry::Close,
            Entry::Release {
                ticket: 1,
                by: Worker(7),
            },
        ],
    ),
];
