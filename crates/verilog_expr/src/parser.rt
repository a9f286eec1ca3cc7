// A cursor over tokens.
ghost use Rattle.std.specs.Prelude.{◌≡◌, ◌≤◌, ◌<◌, length, IfOk, OnOk, OnErr, [], ◌∷◌, ◌↔◌, IsTrue, MatchOption, MatchBool, ◌≢◌, true, false};
ghost use Rattle.verilog_expr.specs.Tokens as tokens;
ghost use Rattle.verilog_expr.specs.Tokens.{next, max_weight, Differs, Takes};
ghost use Rattle.verilog_expr.specs.Grammar.{T, is_outside, begins_expression};
ghost use Rattle.verilog_expr.specs.Machine.{stop};
ghost use Rattle.verilog_expr.specs.Reads.{Reads};

use crate::error::ParseError;
use crate::fault::ParseFault;
use crate::operators::{binary_operator, unary_operator};
use crate::stop::Stop;
use ls_text::Place;
use std::alloc::Global;
use std::marker::Model;
use verilog_ast::{BinaryOperator, UnaryOperator};
use verilog_lex::{Kind, Token};

/// The most that may be open at a token: operators, brackets, branches, statements and generate blocks.
const MAX_WEIGHT: u32 = 256;

/// Whether no token may be taken where so much is open.
pub fn is_too_heavy(weight: u32) -> bool
    ensures { MatchBool result (max_weight < weight) (weight ≤ max_weight) }
{
    weight > MAX_WEIGHT
}

/// The tokens that are left to read.
#[derive(Drop)]
pub struct Parser<'a> {
    alloc: Global,
    rest: &'a [Token],
}

impl<'a> Model for Parser<'a> {
    ghost use Rattle.std.specs.Prelude.{List};
    ghost use Rattle.verilog_lex.specs.declared.token.Token.{Token as AToken};

    ghost Value = { List AToken };

    ghost view = { λ p. p.rest.now };
}

fn is_kind(kind: Kind, other: Kind) -> bool
    ensures { IsTrue result ↔ (kind ≡ other) }
{
    kind == other
}

// The first token, where it is of this kind, and the others.
fn first_of_kind(kind: Kind, tokens: &[Token]) -> Option<(Token, &[Token])>
    ensures { MatchOption result (Differs kind tokens.now) (λ p. (tokens.now ≡ p.0 ∷ p.1.now) × (p.0.kind ≡ kind)) }
{
    match tokens.split_first() {
        Some((token, rest)) if is_kind(token.kind, kind) => Some((*token, rest)),
        _ => None,
    }
}

// Whether the grammar nowhere uses a token of this kind.
fn is_outside(kind: Kind) -> bool
    ensures { result ≡ is_outside kind }
{
    matches!(
        kind,
        Kind::Reserved
            | Kind::Or
            | Kind::Hash
            | Kind::CaseEqual
            | Kind::CaseNotEqual
            | Kind::Power
            | Kind::Arrow
    )
}

fn stop(outside: bool) -> Stop
    ensures { result ≡ stop outside }
{
    if outside {
        Stop::NotInProfile
    } else {
        Stop::Syntax
    }
}

impl<'a> Parser<'a> {
    /// A cursor before the first token.
    pub fn new(alloc: Global, tokens: &'a [Token]) -> Parser<'a>
        ensures { result ≡ tokens.now }
    {
        Parser {
            alloc,
            rest: tokens,
        }
    }

    /// The allocator that the cursor was made with. The view of a cursor is its tokens alone, and what is read doesn't
    /// depend on the allocator, so no clause speaks of it.
    pub fn alloc(&self) -> Global {
        self.alloc
    }

    /// The tokens that are left.
    pub fn rest(&self) -> &'a [Token]
        ensures { result.now ≡ self.now }
    {
        self.rest
    }

    /// The place of the next token; line 1, column 1 of file 0 where none is left.
    pub fn place(&self) -> Place
        ensures { result ≡ tokens.place_at self.now }
    {
        match self.rest.split_first() {
            Some((token, _)) => token.at,
            None => Place {
                file: 0,
                line: 1,
                col: 1,
            },
        }
    }

    /// The kind of the next token; that of an end where none is left.
    pub fn peek(&self) -> Kind
        ensures { result ≡ next self.now }
    {
        match self.rest.split_first() {
            Some((token, _)) => token.kind,
            None => Kind::End,
        }
    }

    /// Whether a token of this kind is next.
    pub fn sees(&self, kind: Kind) -> bool
        ensures { MatchBool result (kind ≡ next self.now) (next self.now ≢ kind) }
    {
        is_kind(self.peek(), kind)
    }

    /// The operator before an operand that is next.
    pub fn sees_unary(&self) -> Option<UnaryOperator>
        ensures { result ≡ tokens.unary_operator (next self.now) }
    {
        unary_operator(self.peek())
    }

    /// The operator between operands that is next.
    pub fn sees_binary(&self) -> Option<BinaryOperator>
        ensures { result ≡ tokens.binary_operator (next self.now) }
    {
        binary_operator(self.peek())
    }

    /// Whether an expression can begin with the next token.
    pub fn sees_expression(&self) -> bool
        ensures { MatchBool result (begins_expression (next self.now) ≡ true) (begins_expression (next self.now) ≡ false) }
    {
        self.sees_unary().is_some()
            || matches!(
                self.peek(),
                Kind::Number | Kind::Word | Kind::LeftParen | Kind::LeftBrace
            )
    }

    /// Sets the cursor back to where it was.
    pub(crate) fn back_to(&mut self, tokens: &'a [Token])
        ensures { self.new ≡ tokens.now }
    {
        self.rest = tokens;
    }

    /// Takes a token of this kind, where it is next and no more is open at it than may be. A refusal leaves the cursor where
    /// it was.
    pub fn expect(&mut self, kind: Kind, weight: u32) -> Result<Token, ParseError>
        ensures machine { Reads (T kind weight ∷ []) self.old result self.new }
        ensures err { OnErr result (self.new ≡ self.old) }
        ensures takes { IfOk result (λ t. Takes kind self.old self.new t) }
        ensures light { OnOk result (weight ≤ max_weight) }
        ensures shorter { OnOk result (length self.new < length self.old) }
    {
        let Some((token, rest)) = first_of_kind(kind, self.rest) else {
            return Err(self.stuck());
        };
        if weight > MAX_WEIGHT {
            return Err(ParseError::Fault(ParseFault::Heavy(self.rest.len())));
        }
        self.rest = rest;
        Ok(token)
    }

    /// The fault at the next token, where no rule goes on with it.
    pub fn stuck(&self) -> ParseError
        ensures { result ≡ ParseError.Fault (ParseFault.Stuck (stop (is_outside (next self.now))) (length self.now)) }
    {
        ParseError::Fault(ParseFault::Stuck(stop(is_outside(self.peek())), self.rest.len()))
    }

    /// The fault at the next token, where the standard has it in this place and this language hasn't.
    pub fn outside(&self) -> ParseError
        ensures { result ≡ ParseError.Fault (ParseFault.Stuck Stop.NotInProfile (length self.now)) }
    {
        ParseError::Fault(ParseFault::Stuck(Stop::NotInProfile, self.rest.len()))
    }

    /// The fault at the next token, where too much is open.
    pub fn heavy(&self) -> ParseError
        ensures { result ≡ ParseError.Fault (ParseFault.Heavy (length self.now)) }
    {
        ParseError::Fault(ParseFault::Heavy(self.rest.len()))
    }
}
