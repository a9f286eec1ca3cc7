// Labels of the items of a `case`.
use crate::expression::Expr;
use crate::nodes::Child;
use crate::pattern::Pattern;
use ls_text::Place;

/// What an item of a `case` is compared with.
#[derive(Drop)]
pub enum Label {
    /// A literal with don't-cares, in a `casez` alone.
    Pattern(Place, Pattern),
    Expr(Child<Expr>),
}
