// Tables of rows, as the data folders of programs for the gate have them.
//
// A `table` has `row`s, each a text and what has to be read of it, in lines in which some bytes are written by `escapes`. A `reader` says what a text
// is read as, a `property` what holds of a whole table (nothing, for `no_property`), and `comparing` names what is otherwise in a folder of tables.
// `texts` has what readers make of texts first, and show of names and faults; `hexadecimal` writes numbers.
#![tactic(auto)]

mod comparing;
mod escapes;
mod hexadecimal;
mod no_property;
mod property;
mod reader;
mod row;
mod table;
mod texts;

pub use comparing::compare_all;
pub use escapes::{FILE_END, number};
pub use hexadecimal::push_hex;
pub use no_property::NoProperty;
pub use property::Property;
pub use reader::{Reader, first_other, joined};
pub use row::Row;
pub use table::Table;
pub use texts::{fault_text, name, texts_of, tokens_of, word};
