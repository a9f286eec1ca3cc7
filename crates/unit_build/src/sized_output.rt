// An output connection, sized.
ghost use Rattle.std.specs.Prelude.{◌≤◌};

use typed_ir::{Lane, Mention, TargetForm};

/// What an output drives: how it is shown, its parts from left to right with the bits of the value that go to each, how many bits they
/// take, and their names.
#[derive(Drop)]
pub struct SizedOutput {
    pub form: TargetForm,
    pub lanes: Vec<Lane>,
    pub width: u8,
    pub mentions: Vec<Mention>,
    ghost at_most_128: { width ≤ 128 },
}
