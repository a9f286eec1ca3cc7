// Whether a parameter can be overridden.

/// Whether an instance can give a parameter another value (IEEE Std 1364-2005, 4.10.1 and 4.10.2).
#[derive(Clone, Copy, Debug, PartialEq, Eq)]
pub enum ParameterSort {
    /// `parameter`
    Overridable,
    /// `localparam`
    Local,
}
