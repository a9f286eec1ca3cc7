// What a design may have.

/// What a design may have at most: modules, instances, ports of its top, turns of the loops of a module, and levels of instances below the
/// top.
#[derive(Clone, Copy, Debug, PartialEq, Eq)]
pub struct Limits {
    pub modules: usize,
    pub instances: u32,
    pub top_ports: usize,
    pub turns: u32,
    pub levels: u32,
}

impl Limits {
    /// Those of the language: 4,096 modules, 65,536 instances, 256 ports of the top, 65,536 turns, and 63 levels, so that the depth is 64.
    pub const LANGUAGE: Limits = Limits {
        modules: 4_096,
        instances: 65_536,
        top_ports: 256,
        turns: 65_536,
        levels: 63,
    };
}
