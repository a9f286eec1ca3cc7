// Continuous assignments, sized.
use typed_ir::{Lane, Typed};

/// A continuous assignment: the parts of its target from left to right, with the bits of the value that go there, and what drives
/// them, at the larger of both lengths.
#[derive(Drop)]
pub struct Drive {
    pub lanes: Vec<Lane>,
    pub value: Typed,
}
