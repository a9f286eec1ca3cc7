// Verilog texts, read exactly as the grammar says.
//
// `parsing` and `file` read a whole text into `modules`: a header (the crate `verilog_decl`), then items, each by a function of its
// nonterminal (`generate`, and `items` for those without a generate construct, over `verilog_decl` and `verilog_stmt`). Each ensures what the
// grammar machine does, and one phrase of the relation `Spells`; `laws` says of this relation that a text is read in one way, that trees
// and names have the places of their tokens, and that names may change.
#![tactic(auto)]

mod file;
mod generate;
mod items;
mod laws;
mod modules;
mod parsing;

pub use items::plain_item;
pub use laws::{
    items_have_places, names_have_places, names_may_change, parts_of_items_have_places,
    texts_are_read_in_one_way,
};
pub use parsing::parse;
