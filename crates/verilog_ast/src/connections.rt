// The connections of an instance.
use crate::named_connection::NamedConnection;
use crate::nodes::Children;
use crate::ordered_connection::OrderedConnection;

/// The connections of ports, or the overrides of parameters.
#[derive(Drop)]
pub enum Connections {
    Named(Children<NamedConnection>),
    Ordered(Children<OrderedConnection>),
}
