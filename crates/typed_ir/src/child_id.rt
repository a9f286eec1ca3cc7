// Numbers of instances within a module.
ghost use Rattle.std.specs.Prelude.{◌≡◌};

use std::marker::Model;

/// The number of an instance among those within a module, from 0, in item order. Contracts see it as that number.
#[derive(Clone, Copy, Debug, PartialEq, Eq, Hash)]
pub struct ChildId(pub u32);

impl Model for ChildId {
    ghost use Rattle.std.specs.Prelude.{ℕ};

    ghost Value = { ℕ };

    ghost view = { λ s. s.0 };

    ghost inverse = { λ n. record { 0 = n } };
}

impl ChildId {
    /// The place of the instance in the list of these.
    pub fn index(self) -> usize
        ensures { result ≡ self }
    {
        self.0 as usize
    }

    /// The number itself.
    pub fn number(self) -> u32
        ensures { result ≡ self }
    {
        self.0
    }
}
