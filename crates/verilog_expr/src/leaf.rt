// What a single token says.
ghost use Rattle.std.specs.Prelude.{◌≡◌};
ghost use Rattle.verilog_expr.specs.Tokens as tokens;

use verilog_ast::{Identifier, Number, Pattern};
use verilog_lex::Token;

/// The name that a word is.
pub fn identifier(token: Token) -> Identifier
    ensures { result ≡ tokens.identifier_of token }
{
    Identifier {
        at: token.at,
        name: token.text,
    }
}

/// The number that a token is.
pub fn number(token: Token) -> Number
    ensures { result ≡ tokens.number_of token }
{
    Number {
        size: token.literal.size,
        signed: token.literal.signed,
        value: token.literal.value,
    }
}

/// The literal with don't-cares that a token is.
pub fn pattern(token: Token) -> Pattern
    ensures { result ≡ tokens.pattern_of token }
{
    Pattern {
        size: token.literal.size,
        value: token.literal.value,
        mask: token.literal.mask,
    }
}
