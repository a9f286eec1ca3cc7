// What the walk says of the parts of a concatenation.
use crate::joined::Joined;

/// Parts that have no fault: what they are together, and whether no net and no variable is in them.
#[derive(Drop)]
pub struct JoinedParts {
    pub joined: Joined,
    pub constant: bool,
}
