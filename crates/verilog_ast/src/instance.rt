// Instances.
use crate::connections::Connections;
use crate::identifier::Identifier;

/// An instance and its connections.
#[derive(Drop)]
pub struct Instance {
    pub name: Identifier,
    pub connections: Connections,
}
