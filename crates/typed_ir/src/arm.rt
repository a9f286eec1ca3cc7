// The arms of a case.
use crate::item::Item;
use crate::stmt::Stmt;

/// What a case does where one of these items matches its expression.
#[derive(Drop)]
#[cycle(statement)]
pub struct Arm {
    pub items: Vec<Item>,
    pub body: Stmt,
}
