// Values of constants, in an order.
ghost use Rattle.std.specs.Prelude.{◌≡◌};

use crate::constant::Const;
use std::marker::Model;

/// The values of a module's parameters, in their order. Contracts see it as the list of these.
#[derive(Debug, Drop)]
pub struct ConstList {
    values: Vec<Const>,
}

impl Model for ConstList {
    ghost use Rattle.std.specs.Prelude.{List};
    ghost use Rattle.typed_ir.specs.declared.constant.Const.{Const};

    ghost Value = { List Const };

    ghost view = { λ l. l.values.items };
}

impl ConstList {
    /// The list of these values. It takes no memory.
    pub fn new(values: Vec<Const>) -> Self
        ensures { result ≡ values.items }
    {
        ConstList { values }
    }

    /// The values of the list, from the first one on.
    pub fn as_slice(&self) -> &[Const]
        ensures { result.now ≡ self.now }
    {
        &self.values
    }

    /// Gives the values back. It takes no memory.
    pub fn into_vec(self) -> Vec<Const>
        ensures { result.items ≡ self }
    {
        self.values
    }
}
