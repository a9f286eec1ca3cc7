// Declared ports of a header.
use crate::identifier::Identifier;
use crate::port_net::PortNet;
use crate::shape::Shape;
use crate::variable::Variable;
use ls_text::Place;

/// A port of a header that declares its ports.
#[derive(Drop)]
pub enum HeaderPort {
    Input(Place, PortNet, Shape, Identifier),
    Output(Place, PortNet, Shape, Variable),
    /// A further name, which has the declaration of the port before.
    Next(Variable),
}
