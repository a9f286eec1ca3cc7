// Expressions, by recursive descent: one function a nonterminal.
#![tactic(auto, using(crate::proofs::Runs::runs, crate::proofs::Runs::loops, crate::proofs::Entries::entries, crate::proofs::Trees::trees))]

ghost use Rattle.std.specs.Prelude.{◌≡◌, ◌≤◌, ◌<◌, ◌+◌, ◌^◌, [], ◌∷◌, length, OnOk, OnErr, IfOk, ◌≢◌};
ghost use Rattle.verilog_expr.specs.Grammar as grammar;
ghost use Rattle.verilog_expr.specs.Grammar.{N};
ghost use Rattle.verilog_expr.specs.Reads.{Reads, ReadsChain};
ghost use Rattle.verilog_expr.specs.Spells as spells;
ghost use Rattle.verilog_expr.specs.Tokens.{next};
ghost use Rattle.verilog_lex.specs.declared.kind.Kind.TheVariants.{Dot};
ghost use Rattle.verilog_expr.specs.Spells.{Spells, AChain, AnOperand, APart, ABraced, BindsLooser, Behind};

use crate::error::ParseError;
use crate::leaf::{identifier, number};
use crate::operators::level;
use crate::parser::{Parser, is_too_heavy};
use ls_text::Place;
use verilog_ast::{Child, Children, Expr, Identifier, Range, Reference};
use verilog_lex::Kind;

impl<'a> Parser<'a> {
    /// What follows a name: a select, or nothing.
    ///
    /// `weight` is what is open at the next token: unary operators, brackets, branches of `?:`, statements and generate
    /// blocks, and in each open expression the binary operators that were read. It is below 2^31.
    ///
    /// Faults: 38 NotInProfile at a dot behind the name or behind the select, 15 Syntax or 38 at the first other token where
    /// the grammar has no rule, 16 NestedTooDeep at the first token whose weight is above 256; the earlier.
    ///
    /// A refusal leaves the cursor where it was.
    pub fn select(&mut self, name: Identifier, weight: u32) -> Result<Reference, ParseError>
        requires { weight < 2 ^ 31 }
        ensures machine { Reads (N grammar.ASelect weight ∷ []) self.old result self.new }
        ensures err { OnErr result (self.new ≡ self.old) }
        ensures tree { IfOk result (λ x. Spells (spells.ASelect name x) self.old self.new) }
        ensures shorter { OnOk result (length self.new ≤ length self.old) }
    {
        let before = self.rest();
        match self.read_select(name, weight) {
            Ok(reference) => Ok(reference),
            Err(error) => {
                self.back_to(before);
                Err(error)
            }
        }
    }

    /// The longest expression.
    ///
    /// `weight` is what is open at the next token: unary operators, brackets, branches of `?:`, statements and generate
    /// blocks, and in each open expression the binary operators that were read. It is below 2^31.
    ///
    /// Faults: 15 Syntax or 38 NotInProfile at the first token where the grammar has no rule, 16 NestedTooDeep at the first
    /// token whose weight is above 256; the earlier.
    ///
    /// A refusal leaves the cursor where it was.
    pub fn expression(&mut self, weight: u32) -> Result<Expr, ParseError>
        requires { weight < 2 ^ 31 }
        ensures machine { Reads (N grammar.AnExpression weight ∷ []) self.old result self.new }
        ensures err { OnErr result (self.new ≡ self.old) }
        ensures tree { IfOk result (λ x. Spells (spells.AnExpression x) self.old self.new) }
        ensures shorter { OnOk result (length self.new < length self.old) }
    {
        let before = self.rest();
        match self.read_expression(weight) {
            Ok(expr) => Ok(expr),
            Err(error) => {
                self.back_to(before);
                Err(error)
            }
        }
    }

    /// An expression, whatever is open at its first token: `weight`, counted as in `expression`, may be any number.
    ///
    /// Faults: 15 Syntax or 38 NotInProfile at the first token where the grammar has no rule, 16 NestedTooDeep at the first
    /// token whose weight is above 256; the earlier.
    /// Where `weight` is above 256 that is the next token: 16 where it begins an expression, else 15 or 38. A refusal leaves
    /// the cursor where it was.
    #[tactic(auto, using(crate::proofs::Runs::runs, crate::proofs::Weights::weights))]
    pub fn expression_at(&mut self, weight: u32) -> Result<Expr, ParseError>
        ensures machine { Reads (N grammar.AnExpression weight ∷ []) self.old result self.new }
        ensures err { OnErr result (self.new ≡ self.old) }
        ensures tree { IfOk result (λ x. Spells (spells.AnExpression x) self.old self.new) }
        ensures shorter { OnOk result (length self.new < length self.old) }
    {
        if is_too_heavy(weight) {
            if self.sees_expression() {
                return Err(self.heavy());
            }
            return Err(self.stuck());
        }
        self.expression(weight)
    }

    /// `[high:low]`
    ///
    /// `weight`, counted as in `expression`, is below 2^31.
    ///
    /// Faults: 15 Syntax or 38 NotInProfile at the first token where the grammar has no rule, 16 NestedTooDeep at the first
    /// token whose weight is above 256; the earlier.
    ///
    /// A refusal leaves the cursor where it was.
    pub fn range(&mut self, weight: u32) -> Result<Range, ParseError>
        requires { weight < 2 ^ 31 }
        ensures machine { Reads (N grammar.ARange weight ∷ []) self.old result self.new }
        ensures err { OnErr result (self.new ≡ self.old) }
        ensures tree { IfOk result (λ x. Spells (spells.ARange x) self.old self.new) }
        ensures shorter { OnOk result (length self.new < length self.old) }
    {
        let before = self.rest();
        match self.read_range(weight) {
            Ok(range) => Ok(range),
            Err(error) => {
                self.back_to(before);
                Err(error)
            }
        }
    }
}

impl<'a> Parser<'a> {
    // What follows a name: a select, or nothing.
    #[cycle(expression)]
    fn read_select(&mut self, name: Identifier, weight: u32) -> Result<Reference, ParseError>
        requires { weight < 2 ^ 31 }
        ensures machine { Reads (N grammar.ASelect weight ∷ []) self.old result self.new }
        ensures tree { IfOk result (λ x. Spells (spells.ASelect name x) self.old self.new) }
        ensures shorter { OnOk result (length self.new ≤ length self.old) }
    {
        if self.sees(Kind::LeftBracket) {
            self.expect(Kind::LeftBracket, weight)?;
            let first = Child::new(self.alloc(), self.read_expression(weight + 1)?)?;
            let reference = self.part(name, first, weight + 1)?;
            self.expect(Kind::RightBracket, weight + 1)?;
            self.after_select(weight)?;
            return Ok(reference);
        }
        if self.sees(Kind::Dot) {
            return Err(self.outside());
        }
        Ok(Reference::Whole(name))
    }

    // No dot follows a select: a hierarchical name is outside of this language.
    fn after_select(&mut self, weight: u32) -> Result<(), ParseError>
        ensures machine { Reads (N grammar.AfterSelect weight ∷ []) self.old result self.new }
        ensures free { OnOk result (next self.new ≢ Dot) }
        ensures same { OnOk result (self.new ≡ self.old) }
    {
        if self.sees(Kind::Dot) {
            return Err(self.outside());
        }
        Ok(())
    }

    // What follows the first expression of a select.
    #[cycle(expression)]
    fn part(
        &mut self,
        name: Identifier,
        first: Child<Expr>,
        weight: u32,
    ) -> Result<Reference, ParseError>
        requires { weight < 2 ^ 31 }
        ensures machine { Reads (N grammar.Part weight ∷ []) self.old result self.new }
        ensures tree { IfOk result (λ x. Spells (APart name first x) self.old self.new) }
        ensures shorter { OnOk result (length self.new ≤ length self.old) }
    {
        if self.sees(Kind::Colon) {
            self.expect(Kind::Colon, weight)?;
            let low = Child::new(self.alloc(), self.read_expression(weight)?)?;
            return Ok(Reference::Part(name, first, low));
        }
        if self.sees(Kind::PlusColon) {
            self.expect(Kind::PlusColon, weight)?;
            let width = Child::new(self.alloc(), self.read_expression(weight)?)?;
            return Ok(Reference::Upward(name, first, width));
        }
        if self.sees(Kind::MinusColon) {
            self.expect(Kind::MinusColon, weight)?;
            let width = Child::new(self.alloc(), self.read_expression(weight)?)?;
            return Ok(Reference::Downward(name, first, width));
        }
        Ok(Reference::Bit(name, first))
    }

    // The longest expression.
    #[cycle(expression)]
    fn read_expression(&mut self, weight: u32) -> Result<Expr, ParseError>
        requires { weight < 2 ^ 31 }
        ensures machine { Reads (N grammar.AnExpression weight ∷ []) self.old result self.new }
        ensures tree { IfOk result (λ x. Spells (spells.AnExpression x) self.old self.new) }
        ensures shorter { OnOk result (length self.new < length self.old) }
    {
        let (first, inner) = self.chain(0, weight)?;
        if !self.sees(Kind::Question) {
            return Ok(first);
        }
        let first = Child::new(self.alloc(), first)?;
        self.expect(Kind::Question, inner)?;
        let yes = Child::new(self.alloc(), self.read_expression(inner + 1)?)?;
        self.expect(Kind::Colon, inner)?;
        let no = Child::new(self.alloc(), self.read_expression(inner + 1)?)?;
        Ok(Expr::Conditional(first, yes, no))
    }

    // Operands with operators of level `least` and above between them, and how much is open after them.
    #[cycle(expression)]
    fn chain(&mut self, least: u32, weight: u32) -> Result<(Expr, u32), ParseError>
        requires { weight < 2 ^ 31 }
        ensures machine { ReadsChain weight self.old result self.new }
        ensures tree { IfOk result (λ x. Spells (AChain least x.0) self.old self.new) }
        ensures ends { OnOk result (BindsLooser least self.new) }
        ensures shorter { OnOk result (length self.new < length self.old) }
        ensures light { IfOk result (λ x. x.1 < 2 ^ 31) }
    {
        let mut left = self.operand(weight)?;
        let mut inner = weight;
        while let Some(op) = self.sees_binary() {
            if level(op) < least {
                break;
            }
            let kind = self.peek();
            self.expect(kind, inner)?;
            let (right, after) = self.chain(level(op) + 1, inner + 1)?;
            left = Expr::Binary(
                op,
                Child::new(self.alloc(), left)?,
                Child::new(self.alloc(), right)?,
            );
            inner = after;
        }
        Ok((left, inner))
    }

    #[cycle(expression)]
    fn operand(&mut self, weight: u32) -> Result<Expr, ParseError>
        requires { weight < 2 ^ 31 }
        ensures machine { Reads (N grammar.Operand weight ∷ []) self.old result self.new }
        ensures tree { IfOk result (λ x. Spells (AnOperand x) self.old self.new) }
        ensures shorter { OnOk result (length self.new < length self.old) }
    {
        if let Some(op) = self.sees_unary() {
            let kind = self.peek();
            let at = self.expect(kind, weight)?.at;
            let operand = Child::new(self.alloc(), self.operand(weight + 1)?)?;
            return Ok(Expr::Unary(at, op, operand));
        }
        match self.peek() {
            Kind::Number => {
                let token = self.expect(Kind::Number, weight)?;
                Ok(Expr::Number(token.at, number(token)))
            }
            Kind::Word => {
                let name = identifier(self.expect(Kind::Word, weight)?);
                Ok(Expr::Read(self.read_select(name, weight)?))
            }
            Kind::LeftParen => {
                let at = self.expect(Kind::LeftParen, weight)?.at;
                let inner = Child::new(self.alloc(), self.read_expression(weight + 1)?)?;
                self.expect(Kind::RightParen, weight + 1)?;
                Ok(Expr::Bracketed(at, inner))
            }
            Kind::LeftBrace => {
                let at = self.expect(Kind::LeftBrace, weight)?.at;
                let first = self.read_expression(weight + 1)?;
                self.braced(at, first, weight + 1)
            }
            _ => Err(self.stuck()),
        }
    }

    // What follows an opening brace and an expression: the rest of a concatenation or of a replication.
    #[cycle(expression)]
    fn braced(&mut self, at: Place, first: Expr, weight: u32) -> Result<Expr, ParseError>
        requires { weight < 2 ^ 31 }
        ensures machine { Reads (N grammar.Braced weight ∷ []) self.old result self.new }
        ensures tree { IfOk result (λ x. Spells (ABraced at first x) self.old self.new) }
        ensures shorter { OnOk result (length self.new < length self.old) }
    {
        if !self.sees(Kind::LeftBrace) {
            let all = self.more(first, weight)?;
            self.expect(Kind::RightBrace, weight)?;
            return Ok(Expr::Concatenation(at, all));
        }
        let count = Child::new(self.alloc(), first)?;
        self.expect(Kind::LeftBrace, weight)?;
        let inner = self.read_expression(weight + 1)?;
        let all = self.more(inner, weight + 1)?;
        self.expect(Kind::RightBrace, weight + 1)?;
        self.expect(Kind::RightBrace, weight)?;
        Ok(Expr::Replication(at, count, all))
    }

    // Further expressions, each after a comma, behind the first.
    #[cycle(expression)]
    fn more(&mut self, first: Expr, weight: u32) -> Result<Children<Expr>, ParseError>
        requires { weight < 2 ^ 31 }
        ensures machine { Reads (N grammar.More weight ∷ []) self.old result self.new }
        ensures tree { IfOk result (λ all. Spells (Behind first all) self.old self.new) }
        ensures shorter { OnOk result (length self.new ≤ length self.old) }
    {
        let mut all = Children::new(self.alloc());
        all.push(first)?;
        'items: while self.sees(Kind::Comma) {
            self.expect(Kind::Comma, weight)?;
            all.push(self.read_expression(weight)?)?;
        }
        Ok(all)
    }
    // `[high:low]`
    fn read_range(&mut self, weight: u32) -> Result<Range, ParseError>
        requires { weight < 2 ^ 31 }
        ensures machine { Reads (N grammar.ARange weight ∷ []) self.old result self.new }
        ensures tree { IfOk result (λ x. Spells (spells.ARange x) self.old self.new) }
        ensures shorter { OnOk result (length self.new < length self.old) }
    {
        self.expect(Kind::LeftBracket, weight)?;
        let high = Child::new(self.alloc(), self.read_expression(weight + 1)?)?;
        self.expect(Kind::Colon, weight + 1)?;
        let low = Child::new(self.alloc(), self.read_expression(weight + 1)?)?;
        self.expect(Kind::RightBracket, weight + 1)?;
        Ok(Range { high, low })
    }
}
