// Steps of paths.
use ls_text::NameId;

/// One more name of a path: the number of the path that it goes on from, None where it is the first name.
#[derive(Clone, Copy, Debug, PartialEq, Eq, Hash)]
pub struct PathStep {
    pub before: Option<usize>,
    pub name: NameId,
}
