// Numbers of clocked blocks.
ghost use Rattle.std.specs.Prelude.{◌≡◌};

use std::marker::Model;

/// The number of a clocked block among those of a module, from 0, in item order. Contracts see it as that number.
#[derive(Clone, Copy, Debug, PartialEq, Eq, Hash)]
pub struct ClockedId(pub u32);

impl Model for ClockedId {
    ghost use Rattle.std.specs.Prelude.{ℕ};

    ghost Value = { ℕ };

    ghost view = { λ s. s.0 };

    ghost inverse = { λ n. record { 0 = n } };
}

impl ClockedId {
    /// The place of the block in a list of all.
    pub fn index(self) -> usize
        ensures { result ≡ self }
    {
        self.0 as usize
    }

    /// The number itself.
    pub fn number(self) -> u32
        ensures { result ≡ self }
    {
        self.0
    }
}
