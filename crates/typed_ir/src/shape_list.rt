// Instances within a module, by their ports.
ghost use Rattle.std.specs.Prelude.{◌≡◌};

use crate::child_shape::ChildShape;
use std::marker::Model;

/// The instances within a module, in item order. Contracts see it as the list of these.
#[derive(Debug, Drop)]
pub struct ShapeList {
    children: Vec<ChildShape>,
}

impl Model for ShapeList {
    ghost use Rattle.std.specs.Prelude.{List};
    ghost use Rattle.typed_ir.specs.declared.child_shape.ChildShape.{ChildShape};

    ghost Value = { List ChildShape };

    ghost view = { λ l. l.children.items };
}

impl ShapeList {
    /// The list of these instances. It takes no memory.
    pub fn new(children: Vec<ChildShape>) -> Self
        ensures { result ≡ children.items }
    {
        ShapeList { children }
    }

    /// The instances of the list, from the first one on.
    pub fn as_slice(&self) -> &[ChildShape]
        ensures { result.now ≡ self.now }
    {
        &self.children
    }

    /// Gives the instances back. It takes no memory.
    pub fn into_vec(self) -> Vec<ChildShape>
        ensures { result.items ≡ self }
    {
        self.children
    }
}
