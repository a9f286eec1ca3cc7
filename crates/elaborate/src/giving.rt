// What parameters an instance gives values.
ghost use Rattle.std.specs.Prelude.{◌≡◌, ◌++◌, ◌∷◌, [], None, OnOk};
ghost use Rattle.gen_unroll.specs.Values.{constant_of};
ghost use Rattle.gen_unroll.specs.Views.{override_view};
ghost use Rattle.elaborate.specs.Overrides.{given_to};
ghost use Rattle.elaborate.specs.Views.{given_of};

use crate::given_parameters::GivenParameters;
use indexmap::IndexMap;
use ls_text::{NameId, NoMemory};
use std::alloc::Global;
use typed_ir::Const;

impl GivenParameters {
    /// No value.
    pub fn new(alloc: Global) -> GivenParameters
        ensures { given_of result ≡ [] }
    {
        GivenParameters {
            values: IndexMap::new(alloc),
        }
    }

    /// The value that a parameter is given, if it is.
    pub fn find(&self, name: NameId) -> Option<Const>
        ensures { override_view result ≡ given_to name.0 (given_of self.now) }
    {
        match self.values.get(&name) {
            Some(found) => Some(*found),
            None => None,
        }
    }

    /// One value more.
    pub fn add(&mut self, name: NameId, value: Const) -> Result<(), NoMemory>
        requires { given_to name.0 (given_of self.old) ≡ None }
        ensures { OnOk result (given_of self.new ≡ given_of self.old ++ record { name = name.0; value = constant_of value } ∷ []) }
    {
        self.values.insert(name, value)?;
        Ok(())
    }
}
