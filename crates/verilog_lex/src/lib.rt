// From the pieces of the source files to tokens.
//
// `read` takes the next `lexeme` off a `cursor`: `cut` finds the longest stretch that stands there (`mark`, `based`), as a `shape`. `lexer` makes
// tokens (`token`) of lexemes, with their kinds (`kind`, `keyword`) and literals (`literal`): `number` has those of decimals and of based parts
// (`number_part`). `laws` says the same by relations on whole lists.
#![tactic(auto)]

mod based;
mod cursor;
mod cut;
mod keyword;
mod kind;
mod laws;
mod lexeme;
mod lexer;
mod literal;
mod mark;
mod number;
mod number_part;
mod read;
mod shape;
mod token;

pub use kind::Kind;
pub use laws::{groups_of_lexemes, readings_of_pieces, stretches_of_texts};
pub use lexer::lex;
pub use literal::Literal;
pub use token::Token;
