// Kinds of `case`.

/// Which kind of `case` a statement is.
#[derive(Clone, Copy, Debug, PartialEq, Eq)]
pub enum CaseKind {
    Case,
    Casez,
}
