// What all that reads texts stands on, from the bytes of a file to the line that shows what is wrong with them.
//
// A file is a name, whose form `file_names` tells, and a text (`source_file`, `text_bytes`). Over its bytes, `bytes` has classes and the
// lengths of runs, `stretch` parts by their lengths, `place` lines and columns. A `piece` is a stretch of a file by its offsets, and
// `files` gives its bytes again. `names` gives equal texts one number, a `name_id`; `name_list` is a list of them. What is wrong is a
// `fault` with where it stands (`at`); a call answers it as a `refusal`, and `fault_lines` writes its line. `no_memory` is the one answer
// that every call which takes memory may give beside its own.
#![tactic(auto)]

mod at;
mod bytes;
mod fault;
mod fault_lines;
mod file_names;
mod files;
mod name_id;
mod name_list;
mod names;
mod no_memory;
mod piece;
mod place;
mod refusal;
mod source_file;
mod stretch;
mod text_bytes;

pub use at::At;
pub use bytes::{
    blank_len, is_digit, is_letter, is_space, line_len, space_len, through_pair,
    trailing_space_len, word_len,
};
pub use fault::{Fault, text_fault};
pub use fault_lines::{fault_line, push_decimal};
pub use file_names::is_file_name;
pub use files::{text_between, text_of};
pub use name_id::NameId;
pub use name_list::NameList;
pub use names::Names;
pub use no_memory::NoMemory;
pub use piece::Piece;
pub use place::{Place, file_start, place_after};
pub use refusal::Refusal;
pub use source_file::SourceFile;
pub use stretch::{behind, byte_at, front};
pub use text_bytes::TextBytes;
