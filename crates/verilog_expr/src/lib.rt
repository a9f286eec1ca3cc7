// Expressions of a Verilog text, read exactly as the grammar says; the cursor and the grammar machine of the whole
// language.
//
// `parser` is the cursor over tokens, `parsing` reads one expression from a token on (`parsed_expr`) by `expression` (`operators`, `leaf`), and
// `showing` makes a fault of what the machine refuses (`error`, `fault`, `stop`). The machine stands in `specs/`; `laws` says that it reads a text in
// one way, that its trees have places, and that names may change.
#![tactic(auto)]

mod error;
mod expression;
mod fault;
mod laws;
mod leaf;
mod operators;
mod parsed_expr;
mod parser;
mod parsing;
mod showing;
mod stop;

pub use error::ParseError;
pub use fault::ParseFault;
pub use laws::{
    expressions_are_read_in_one_way, expressions_have_places, expressions_may_be_renamed,
};
pub use leaf::{identifier, number, pattern};
pub use parsed_expr::ParsedExpr;
pub use parser::Parser;
pub use parsing::parse_expr;
pub use showing::shown;
pub use stop::Stop;
