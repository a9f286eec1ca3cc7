// A value for a port.
use ls_text::NameId;

/// A port, and the value that it is set to, below 2^128.
#[derive(Clone, Copy, Debug, PartialEq, Eq)]
pub struct PortValue {
    pub port: NameId,
    pub value: u128,
}
