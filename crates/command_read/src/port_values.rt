// The values of a `set`.
ghost use Rattle.std.specs.Prelude.{◌≡◌};

use crate::PortValue;
use std::marker::Model;

/// The values of a `set`, as they stand in it; of two for one port the later one counts. Contracts see it as the list of these.
#[derive(Debug, Drop)]
pub struct PortValues {
    values: Vec<PortValue>,
}

impl Model for PortValues {
    ghost use Rattle.std.specs.Prelude.{List};
    ghost use Rattle.command_read.specs.declared.port_value.PortValue.{PortValue};

    ghost Value = { List PortValue };

    ghost view = { λ l. l.values.items };
}

impl PortValues {
    /// The list of these. It takes no memory.
    pub fn new(values: Vec<PortValue>) -> Self
        ensures { result ≡ values.items }
    {
        PortValues { values }
    }

    /// The values of the list, from the first one on.
    pub fn as_slice(&self) -> &[PortValue]
        ensures { result.now ≡ self.now }
    {
        &self.values
    }

    /// Gives the values back. It takes no memory.
    pub fn into_vec(self) -> Vec<PortValue>
        ensures { result.items ≡ self }
    {
        self.values
    }
}
