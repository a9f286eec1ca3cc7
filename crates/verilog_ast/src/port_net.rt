// The kind of a declared port.

/// What stands between the direction of a port and its sign.
#[derive(Clone, Copy, Debug, PartialEq, Eq)]
pub enum PortNet {
    Nothing,
    Wire,
    Reg,
}
