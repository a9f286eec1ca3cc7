// Ports of a module.
ghost use Rattle.std.specs.Prelude.{◌≡◌};

use crate::port_shape::PortShape;
use std::marker::Model;

/// The ports of a module, in header order. Contracts see it as the list of these.
#[derive(Debug, Drop)]
pub struct PortList {
    ports: Vec<PortShape>,
}

impl Model for PortList {
    ghost use Rattle.std.specs.Prelude.{List};
    ghost use Rattle.typed_ir.specs.declared.port_shape.PortShape.{PortShape};

    ghost Value = { List PortShape };

    ghost view = { λ l. l.ports.items };
}

impl PortList {
    /// The list of these ports. It takes no memory.
    pub fn new(ports: Vec<PortShape>) -> Self
        ensures { result ≡ ports.items }
    {
        PortList { ports }
    }

    /// The ports of the list, from the first one on.
    pub fn as_slice(&self) -> &[PortShape]
        ensures { result.now ≡ self.now }
    {
        &self.ports
    }

    /// Gives the ports back. It takes no memory.
    pub fn into_vec(self) -> Vec<PortShape>
        ensures { result.items ≡ self }
    {
        self.ports
    }
}
