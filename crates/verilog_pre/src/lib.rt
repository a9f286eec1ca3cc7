// From source files to the pieces of text that hold their tokens.
//
// `files` reads file after file into a `reader`; `reading` goes on from what stands at the head of a text (`heads`, `head`): a comment, a run of
// bytes, or a directive (`directives`: its word to a `directive`, and the name behind it). `define` and `body` read a macro (`macro_body`), cut by
// cut (`body_cut`), into the `table` of `macros`; the parts of its body (`part`) are stretches of a file (`stretch`) and uses of others.
// `conditionals` keep the nest of open conditionals (`conditional`, with how far it has come, `branch`), `branches` obeys their directives, and
// `left_open` tells where one stays open. `expand` works off a use, one `item` of the work after another, with the uses that are open in it (`nest`),
// into pieces of the `output`. `laws` says the same by relations on whole texts.
#![tactic(auto)]

mod body;
mod body_cut;
mod branch;
mod branches;
mod conditional;
mod conditionals;
mod define;
mod directive;
mod directives;
mod expand;
mod files;
mod head;
mod heads;
mod item;
mod laws;
mod left_open;
mod macro_body;
mod macros;
mod nest;
mod output;
mod part;
mod reader;
mod reading;
mod stretch;
mod table;

pub use files::preprocess;
pub use laws::{
    bodies_are_stretches, branches_are_chosen, directives_are_obeyed, files_have_pieces,
    texts_are_stretches, uses_are_expansions,
};
