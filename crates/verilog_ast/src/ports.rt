// The ports of a header.
use crate::header_port::HeaderPort;
use crate::identifier::Identifier;
use crate::nodes::Children;

/// The ports of a header.
#[derive(Drop)]
pub enum Ports {
    Nothing,
    Names(Children<Identifier>),
    Declarations(Children<HeaderPort>),
}
