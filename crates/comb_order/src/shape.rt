// What a flat design tells of an instance's unit.

/// What instances of one unit have alike. Those of two units of one module may have it alike too, and then count as of one.
#[derive(Clone, Copy, Debug, PartialEq, Eq, Hash)]
pub struct Shape {
    /// The number of the module's name; 0, where the instance has no signals.
    pub module: u64,
    /// How many signals the instance has.
    pub signals: usize,
    /// How many bits these have.
    pub bits: usize,
    /// How many nodes of its own.
    pub own: usize,
    /// How many connections.
    pub connections: usize,
    /// How many instances it is with all that stand in it.
    pub instances: usize,
    /// How many nodes of their own and connections all these have.
    pub nodes: usize,
}
