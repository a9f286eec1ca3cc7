// Trees of expressions and statements as text: nested brackets with a node's name first, and no places.
use crate::tree_text::TreeText;
use verilog_ast::{
    Arm, BinaryOperator, CaseKind, Expr, Identifier, Label, Lhs, Number, Pattern, Reference, Stmt,
    UnaryOperator,
};

// A value in decimal, where it is at most 1,000,000,000; else a `+`.
fn value(out: &mut TreeText<'_>, value: u128) {
    if value > 1_000_000_000 {
        out.push(b"+");
        return;
    }
    out.decimal(value as u64)
}

// A plain number as it is; else its size, `'`, an `s` where it is signed, and its value in decimal.
fn number(out: &mut TreeText<'_>, number: &Number) {
    out.push(b" ");
    if number.size == 0 && number.signed {
        return value(out, number.value);
    }
    if number.size > 0 {
        out.decimal(u64::from(number.size));
    }
    out.push(if number.signed { b"'s" } else { b"'" });
    value(out, number.value)
}

fn unary(op: UnaryOperator) -> &'static [u8] {
    match op {
        UnaryOperator::Plus => b"+",
        UnaryOperator::Minus => b"-",
        UnaryOperator::LogicalNot => b"!",
        UnaryOperator::Invert => b"~",
        UnaryOperator::ReduceAnd => b"&",
        UnaryOperator::ReduceNand => b"~&",
        UnaryOperator::ReduceOr => b"|",
        UnaryOperator::ReduceNor => b"~|",
        UnaryOperator::ReduceXor => b"^",
        UnaryOperator::ReduceXnor => b"~^",
    }
}

fn binary(op: BinaryOperator) -> &'static [u8] {
    match op {
        BinaryOperator::Multiply => b"*",
        BinaryOperator::Divide => b"/",
        BinaryOperator::Remainder => b"%",
        BinaryOperator::Add => b"+",
        BinaryOperator::Subtract => b"-",
        BinaryOperator::ShiftLeft => b"<<",
        BinaryOperator::ShiftRight => b">>",
        BinaryOperator::ArithmeticShiftLeft => b"<<<",
        BinaryOperator::ArithmeticShiftRight => b">>>",
        BinaryOperator::Less => b"<",
        BinaryOperator::LessOrEqual => b"<=",
        BinaryOperator::Greater => b">",
        BinaryOperator::GreaterOrEqual => b">=",
        BinaryOperator::Equal => b"==",
        BinaryOperator::NotEqual => b"!=",
        BinaryOperator::And => b"&",
        BinaryOperator::Xor => b"^",
        BinaryOperator::Xnor => b"~^",
        BinaryOperator::Or => b"|",
        BinaryOperator::LogicalAnd => b"&&",
        BinaryOperator::LogicalOr => b"||",
    }
}

// `par` stands for brackets, `cat` for a concatenation, `rep` for a replication.
#[cycle(written)]
pub fn expression(out: &mut TreeText<'_>, x: &Expr) {
    match x {
        Expr::Number(_, n) => return number(out, n),
        Expr::Read(r) => return reference(out, r),
        Expr::Unary(_, op, a) => {
            out.open(unary(*op));
            expression(out, a.get());
        }
        Expr::Binary(op, a, b) => {
            out.open(binary(*op));
            expression(out, a.get());
            expression(out, b.get());
        }
        Expr::Conditional(c, a, b) => {
            out.open(b"?");
            expression(out, c.get());
            expression(out, a.get());
            expression(out, b.get());
        }
        Expr::Concatenation(_, all) => {
            out.open(b"cat");
            expressions(out, all.as_slice());
        }
        Expr::Replication(_, n, all) => {
            out.open(b"rep");
            expression(out, n.get());
            expressions(out, all.as_slice());
        }
        Expr::Bracketed(_, a) => {
            out.open(b"par");
            expression(out, a.get());
        }
    }
    out.close()
}

#[cycle(written)]
fn expressions(out: &mut TreeText<'_>, all: &[Expr]) {
    for x in all {
        expression(out, x);
    }
}

// A select has the name of its kind: `bit`, `part`, `up` or `down`.
#[cycle(written)]
fn reference(out: &mut TreeText<'_>, r: &Reference) {
    match r {
        Reference::Whole(n) => out.name(n.name),
        Reference::Bit(n, a) => {
            out.open(b"bit");
            out.name(n.name);
            expression(out, a.get());
            out.close()
        }
        Reference::Part(n, a, b) => {
            out.open(b"part");
            out.name(n.name);
            expression(out, a.get());
            expression(out, b.get());
            out.close()
        }
        Reference::Upward(n, a, b) => {
            out.open(b"up");
            out.name(n.name);
            expression(out, a.get());
            expression(out, b.get());
            out.close()
        }
        Reference::Downward(n, a, b) => {
            out.open(b"down");
            out.name(n.name);
            expression(out, a.get());
            expression(out, b.get());
            out.close()
        }
    }
}

pub fn target(out: &mut TreeText<'_>, t: &Lhs) {
    match t {
        Lhs::Reference(r) => reference(out, r),
        Lhs::Concatenation(_, all) => {
            out.open(b"cat");
            for t in all.as_slice() {
                target(out, t);
            }
            out.close()
        }
    }
}

fn case_word(which: CaseKind) -> &'static [u8] {
    match which {
        CaseKind::Case => b"case",
        CaseKind::Casez => b"casez",
    }
}

// `(: label)`, where a block has one.
fn block_label(out: &mut TreeText<'_>, label: &Option<Identifier>) {
    let Some(label) = label else {
        return;
    };
    out.open(b":");
    out.name(label.name);
    out.close()
}

#[cycle(statements)]
pub fn statement(out: &mut TreeText<'_>, s: &Stmt) {
    match s {
        Stmt::Block(_, label, body) => {
            out.open(b"begin");
            block_label(out, label);
            statements(out, body.as_slice());
        }
        Stmt::If(_, c, yes) => {
            out.open(b"if");
            expression(out, c.get());
            statement(out, yes.get());
        }
        Stmt::IfElse(_, c, yes, no) => {
            out.open(b"else");
            expression(out, c.get());
            statement(out, yes.get());
            statement(out, no.get());
        }
        Stmt::Case(_, which, x, arms) => {
            out.open(case_word(*which));
            expression(out, x.get());
            for arm in arms.as_slice() {
                case_arm(out, arm);
            }
        }
        Stmt::Assign(t, x) => {
            out.open(b"=");
            target(out, t);
            expression(out, x.get());
        }
        Stmt::Empty(_) => return out.word(b";"),
    }
    out.close()
}

#[cycle(statements)]
fn statements(out: &mut TreeText<'_>, all: &[Stmt]) {
    for s in all {
        statement(out, s);
    }
}

#[cycle(statements)]
fn case_arm(out: &mut TreeText<'_>, a: &Arm) {
    match a {
        Arm::Default(_, s) => {
            out.open(b"default");
            statement(out, s.get());
        }
        Arm::Match(all, s) => {
            out.open(b"on");
            for l in all.as_slice() {
                label(out, l);
            }
            statement(out, s.get());
        }
    }
    out.close()
}

// A literal with don't-cares by its size, its value and its mask.
fn label(out: &mut TreeText<'_>, l: &Label) {
    match l {
        Label::Expr(x) => expression(out, x.get()),
        Label::Pattern(_, p) => pattern(out, p),
    }
}

fn pattern(out: &mut TreeText<'_>, p: &Pattern) {
    out.open(b"wild ");
    out.decimal(u64::from(p.size));
    out.push(b" ");
    value(out, p.value);
    out.push(b" ");
    value(out, p.mask);
    out.close()
}
