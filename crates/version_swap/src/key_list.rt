// A list of keys.
ghost use Rattle.std.specs.Prelude.{◌≡◌};

use module_registry::Key;
use std::marker::Model;

/// A list of keys. Contracts see it as the list of these.
#[derive(Drop)]
pub struct KeyList {
    keys: Vec<Key>,
}

impl Model for KeyList {
    ghost use Rattle.std.specs.Prelude.{List};
    ghost use Rattle.std.specs.Coded.{codes};
    ghost use Rattle.module_registry.specs.contracts.build_job.BuildJob.{the_row as build_row};
    ghost use Rattle.module_registry.specs.Keys.{KeyData};

    ghost Value = { List KeyData };

    ghost coded = { Prim.hlevel (codes, build_row.coded) };

    ghost view = { λ l. l.keys.items };
}

impl KeyList {
    /// The list of these keys. It takes no memory.
    pub fn new(keys: Vec<Key>) -> Self
        ensures { result ≡ keys.items }
    {
        KeyList { keys }
    }

    /// The keys of the list, from the first one on.
    pub fn as_slice(&self) -> &[Key]
        ensures { result.now ≡ self.now }
    {
        &self.keys
    }

    /// Gives the keys back. It takes no memory.
    pub fn into_vec(self) -> Vec<Key>
        ensures { result.items ≡ self }
    {
        self.keys
    }
}
