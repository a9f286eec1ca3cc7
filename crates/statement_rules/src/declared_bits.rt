// What a name of a declaration stands for.
ghost use Rattle.std.specs.Prelude.{◌≤◌};

use typed_ir::SignalId;

/// The signal of a name, 0 where it is none, and its width of 1 to 128 bits.
#[derive(Clone, Copy, Debug)]
pub struct DeclaredBits {
    pub signal: SignalId,
    pub width: u8,
    ghost at_least_one: { 1 ≤ width },
    ghost at_most_128: { width ≤ 128 },
}
