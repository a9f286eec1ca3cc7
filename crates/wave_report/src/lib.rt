// What a session writes: the lines that answer its commands, and the tables of its registers.
//
// `tables` writes a state: of each register its path (`naming`) and its value (`digits`). `replies` writes a `reply_kind`, in which a status
// has `unit_lines`, each a `unit_line`.
#![tactic(auto)]

mod digits;
mod naming;
mod replies;
mod reply_kind;
mod tables;
mod unit_line;
mod unit_lines;

pub use digits::push_hex;
pub use replies::reply_line;
pub use reply_kind::ReplyKind;
pub use tables::table;
pub use unit_line::UnitLine;
pub use unit_lines::UnitLines;
