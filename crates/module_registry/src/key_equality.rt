// When keys are equal, and what they are hashed by.
ghost use Rattle.std.specs.Hash as fed;
ghost use Rattle.module_registry.specs.Keys.{same};
ghost use Rattle.module_registry.specs.KeyLaws.{same_laws, same_fed};
ghost use Rattle.std.specs.Cmp.{partial_equiv_from_equiv};

use crate::key::Key;
use std::hash::{Hash, Hasher};

impl PartialEq for Key {
    ghost eq = { same };

    ghost laws = { partial_equiv_from_equiv same_laws };

    fn eq(&self, other: &Key) -> bool {
        self.digest == other.digest && self.text.bytes() == other.text.bytes()
    }
}

impl Eq for Key {
    ghost laws = { same_laws };
}

impl Hash for Key {
    ghost hash_input = { λ k. fed.slice fed.u8 k.digest };

    ghost respects_eq = { same_fed };

    fn hash<H: Hasher>(&self, state: &mut H) {
        self.digest.hash(state);
    }
}
