// Histories of a checkpoint book: entries, what each makes of the book, which histories are legal, and what holds of
// every legal one.
//
// An `entry` says what happened, with the book's answer and, of a ticket, who asked (`who`). What belongs to an open or a reload beside its entry is
// a `load`: the `version` that came, and for a reload its operations. `written` keeps entries, loads and the rows that were run, with the settings,
// of which `rooms` say how many entries there may be. `history_writer` has a place for each entry from its beginning on, takes them one by one and
// becomes a `history`, which is only read. Both are legal by their types, and `historied` is the trait of what tells a history.
//
// What an entry makes of a book stands in `specs/` (`Book`), with which entries may follow (`Legal`) and what is true then (`Truth`); a book's marks
// are a list of segments there (`segment`), each with the `link` from the mark before. `laws` says what holds of every legal history.
#![tactic(auto)]

pub mod entry;
pub mod historied;
pub mod history;
pub mod history_writer;
pub mod laws;
pub mod link;
pub mod load;
pub mod rooms;
pub mod segment;
pub mod version;
pub mod who;
pub mod written;
