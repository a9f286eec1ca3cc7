// Numbers of drivers.
ghost use Rattle.std.specs.Prelude.{◌≡◌};

use std::marker::Model;

/// The number of what drives a bit, from 0: of a node among the nodes, or of a clocked block among the clocked blocks. Which of the two,
/// the table says that holds it. Contracts see it as that number.
#[derive(Clone, Copy, Debug, PartialEq, Eq, Hash)]
pub struct DriverId(pub u32);

impl Model for DriverId {
    ghost use Rattle.std.specs.Prelude.{ℕ};

    ghost Value = { ℕ };

    ghost view = { λ s. s.0 };

    ghost inverse = { λ n. record { 0 = n } };
}

impl DriverId {
    /// The place of the node or the block in the list of all.
    pub fn index(self) -> usize
        ensures { result ≡ self }
    {
        self.0 as usize
    }

    /// The number itself.
    pub fn number(self) -> u32
        ensures { result ≡ self }
    {
        self.0
    }
}
