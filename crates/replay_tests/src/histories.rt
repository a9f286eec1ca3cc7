// Histories that tests take, and wrong ones made of them.
use crate::adders::Adder;
use crate::coming::Coming;
use crate::given::Given;
use book_history::entry::Entry;
use book_history::rooms::Rooms;
use book_history::who::Who;
use history_replay::settings::Settings;
use ls_text::NoMemory;
use std::alloc::Global;

pub const ROOMS: Rooms = Rooms {
    session: 100,
    workers: 100,
};

pub const SESSION: Who = Who::Session;

pub const WORKER: Who = Who::Worker(1);

pub const OTHER: Who = Who::Worker(2);

/// The number of the register's name.
pub const Q: u64 = 10;

/// Those of the input's name, and of the name of another input.
pub const D: u64 = 12;

pub const OTHER_D: u64 = 13;

/// Rows of five cycles, in which both inputs are 0.
pub const FIVE: &[(u64, u128, u128)] = &[(5, 0, 0)];

/// The first version, with an open.
pub fn opened(add: u128) -> Coming {
    Coming {
        is_open: true,
        number: 1,
        adder: Adder {
            register: Q,
            input: D,
            add,
        },
    }
}

/// A version of this number, with a reload.
pub fn reloaded(number: u64, add: u128) -> Coming {
    Coming {
        is_open: false,
        number,
        adder: Adder {
            register: Q,
            input: D,
            add,
        },
    }
}

/// These versions without operations, and these rows, with marks at each multiple of the interval and a lookback of 1.
pub fn given(
    alloc: Global,
    interval: u64,
    loads: &[Coming],
    rows: &[(u64, u128, u128)],
) -> Result<Given, NoMemory> {
    Ok(Given {
        settings: Settings {
            interval,
            lookback: 1,
            rooms: ROOMS,
        },
        loads: Vec::from_slice(alloc, loads)?,
        ops: Vec::new(alloc),
        rows: Vec::from_slice(alloc, rows)?,
    })
}

/// The entries, with another one at this place.
pub fn with(
    alloc: Global,
    entries: &[Entry],
    at: usize,
    entry: Entry,
) -> Result<Vec<Entry>, NoMemory> {
    let mut all = Vec::from_slice(alloc, entries)?;
    if at < all.len() {
        all[at] = entry;
    }
    Ok(all)
}

/// The first entries, so many of them.
pub fn first(alloc: Global, entries: &[Entry], count: usize) -> Result<Vec<Entry>, NoMemory> {
    let mut all = Vec::from_slice(alloc, entries)?;
    all.truncate(count);
    Ok(all)
}

pub fn open() -> Entry {
    Entry::Open { version: 1 }
}

pub fn run(n: u64) -> Entry {
    Entry::Run { n }
}

pub fn claim(ticket: u64, a: u64, b: u64, by: Who) -> Entry {
    Entry::Claim { ticket, a, b, by }
}

pub fn install(ticket: u64, joined: bool, by: Who) -> Entry {
    Entry::Install { ticket, joined, by }
}

pub fn release(ticket: u64, by: Who) -> Entry {
    Entry::Release { ticket, by }
}

pub fn reload(version: u64, from: u64) -> Entry {
    Entry::Reload { version, from }
}

pub fn show(settled_to: Option<u64>) -> Entry {
    Entry::Show { settled_to }
}

/// Marks at 2, 4 and 5 with 6, 12 and 15; the reload makes them 6 and 12 with open links, and 16 with a joined one. The installs give 8, 16 and 20, the
/// first two of which open the next link.
pub fn settled(alloc: Global) -> Result<Vec<Entry>, NoMemory> {
    Ok(vec![in alloc;
        open(),
        run(5),
        reload(2, 4),
        show(Some(0)),
        claim(1, 0, 2, SESSION),
        install(1, true, SESSION),
        claim(2, 2, 4, WORKER),
        install(2, true, WORKER),
        show(Some(4)),
        claim(3, 4, 5, SESSION),
        install(3, true, SESSION),
        show(None),
        Entry::Close,
    ]?)
}

/// A result of an older version, and one from another start; a ticket given up. The installs that join give 10, 20 and 25.
pub fn stale(alloc: Global) -> Result<Vec<Entry>, NoMemory> {
    Ok(vec![in alloc;
        open(),
        run(5),
        reload(2, 4),
        claim(1, 0, 2, WORKER),
        reload(3, 4),
        install(1, false, WORKER),
        claim(2, 0, 2, WORKER),
        claim(3, 2, 4, WORKER),
        install(2, true, WORKER),
        install(3, false, WORKER),
        claim(4, 2, 4, WORKER),
        release(4, WORKER),
        claim(5, 2, 4, WORKER),
        install(5, true, WORKER),
        show(Some(4)),
        claim(6, 4, 5, WORKER),
        install(6, true, WORKER),
        show(None),
    ]?)
}

/// 1,024 marks, and one more: every other one is taken out, and with it the link of the first ticket. Later the session takes the link that a worker
/// has, and both results join.
pub fn thinned(alloc: Global) -> Result<Vec<Entry>, NoMemory> {
    Ok(vec![in alloc;
        open(),
        run(1023),
        reload(2, 1022),
        claim(1, 0, 1, WORKER),
        run(1),
        show(Some(0)),
        claim(2, 0, 2, WORKER),
        install(1, false, WORKER),
        install(2, true, WORKER),
        show(Some(2)),
        claim(3, 2, 4, WORKER),
        show(Some(2)),
        claim(4, 2, 4, SESSION),
        claim(5, 4, 6, WORKER),
        install(3, true, WORKER),
        install(4, true, SESSION),
        install(5, false, WORKER),
        show(Some(4)),
    ]?)
}

/// Marks at each cycle up to 1,024, of which every other one is taken out, and then up to 1,100: all links stay joined.
pub fn long(alloc: Global) -> Result<Vec<Entry>, NoMemory> {
    Ok(vec![in alloc;
        open(),
        run(1100),
        show(None),
        reload(2, 1099),
        claim(1, 0, 2, SESSION),
        install(1, true, SESSION),
        show(Some(2)),
    ]?)
}
