// What a reader shows of a module.

/// What a reader shows of a module: its steps, or how many of each kind there are.
#[derive(Drop)]
pub enum ShownPart {
    Steps,
    Counts,
}
