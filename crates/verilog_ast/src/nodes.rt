// What the parts of a tree are held in: the kit's box and list that contracts see as what they hold, under names of trees.

/// A part of a node, behind a box that contracts see as the part itself.
pub use sqlite_items::Boxed as Child;

/// The parts of a node, in a list that contracts see as the list of them.
pub use sqlite_items::Items as Children;
