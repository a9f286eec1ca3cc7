// Which names a walk over a statement lists.

/// The names that are read, or those that are written.
#[derive(Clone, Copy, Debug, PartialEq, Eq)]
pub enum Asked {
    Reads,
    Targets,
}
