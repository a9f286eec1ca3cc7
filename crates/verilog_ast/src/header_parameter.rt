// Parameters of a header.
use crate::parameter::Parameter;
use crate::shape::Shape;

/// A parameter of a header. It has a shape where `parameter` stands before it, else that of the one before.
#[derive(Drop)]
pub struct HeaderParameter {
    pub shape: Option<Shape>,
    pub parameter: Parameter,
}
