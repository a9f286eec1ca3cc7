// The commands of a script: what they ask for, as plain types, and what reads them from a source.
//
// A `reader` takes bytes of a source (`filling`), finds what stands complete at their front (`finding`: an `item`, a line or a block, by where lines
// end, `line_end`), and reads that (`reading`) to a `command`, a refused line or the end (`read_end`); why it stopped it keeps (`stop`). Of a line,
// `scan` and `numbers` have its words and the forms of its values, `line_commands` the commands of one line (with the `port_values` of a `set`), and
// `block_lines` what a line of a block says (`block_line`). `drafts` goes over the `lines` of a block and keeps a `draft` of it, with the files that
// it names (`named_files`) and the one whose text is open (`open_text`), until it is an `edit`: lists of files, loads and operations (`file_lines`,
// `load_lines`, `op_lines`). What is wrong with a line is made in `faults`. `laws` says that readers tell what the bytes ask for, however these are
// cut.
#![tactic(auto)]

mod block_line;
mod block_lines;
mod command;
mod draft;
mod drafts;
mod edit;
mod faults;
mod file_line;
mod file_lines;
mod filling;
mod finding;
mod item;
pub mod laws;
mod line_commands;
mod line_end;
mod lines;
mod load_line;
mod load_lines;
mod named_files;
mod numbers;
mod op_line;
mod op_lines;
mod open_text;
mod port_value;
mod port_values;
mod read_end;
mod reader;
mod reading;
mod scan;
mod stop;

pub use command::Command;
pub use edit::Edit;
pub use file_line::FileLine;
pub use file_lines::FileLines;
pub use load_line::LoadLine;
pub use load_lines::LoadLines;
pub use op_line::OpLine;
pub use op_lines::OpLines;
pub use port_value::PortValue;
pub use port_values::PortValues;
pub use read_end::ReadEnd;
pub use reader::Reader;
