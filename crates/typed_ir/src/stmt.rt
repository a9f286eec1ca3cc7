// Statements.
use crate::arm::Arm;
use crate::target::Target;
use crate::typed::Typed;

/// A statement; its statements and arms stand in lists, so that it is only as deep as the text nests them.
#[derive(Drop)]
#[cycle(statement)]
pub enum Stmt {
    /// The null statement.
    Skip,
    /// A blocking assignment to these parts, from left to right.
    Assign {
        targets: Vec<Target>,
        value: Typed,
    },
    /// A nonblocking one.
    Later {
        targets: Vec<Target>,
        value: Typed,
    },
    /// `begin .. end`: one after another.
    Sequence(Vec<Stmt>),
    /// A condition, what is done where it isn't 0, and what is done where it is.
    If {
        condition: Typed,
        consequent: Box<Stmt>,
        alternative: Box<Stmt>,
    },
    /// A case's expression, its arms in their order, and what is done where none matches.
    Case {
        subject: Typed,
        arms: Vec<Arm>,
        otherwise: Box<Stmt>,
    },
}
