// Units that come in, and copies of a registry.
ghost use Rattle.std.specs.Prelude.{◌≡◌, ◌++◌, ◌∷◌, [], true, false, map, take, length, IfOk, OnOk, OnErr};
ghost use Rattle.module_registry.specs.Entries.{keys_of, is_among, are_new, entries};
ghost use Rattle.module_registry.specs.UnitViews.{shared_unit};
ghost use Rattle.module_registry.specs.Views.{entries_of};

use crate::key::Key;
use crate::registry::Registry;
use ls_text::NoMemory;
use std::alloc::Global;
use std::sync::Arc;
use typed_ir::Unit;

impl Registry {
    // One unit more, behind the others. Want of memory is `NoMemory`: then the units stay.
    fn add(&mut self, key: &Key, unit: &Arc<Unit, Global>) -> Result<(), NoMemory>
        requires { is_among key.now (keys_of (entries_of self.old)) ≡ false }
        ensures more { OnOk result (entries_of self.new ≡ entries_of self.old ++ record { key = key.now; unit = shared_unit unit.now } ∷ []) }
        ensures same { OnErr result (entries_of self.new ≡ entries_of self.old) }
    {
        self.units.insert(key.clone()?, unit.clone()?)?;
        Ok(())
    }

    // Units of these keys more, behind the others; at want of memory, some of them.
    fn add_all(&mut self, keys: &[Key], units: &[Arc<Unit, Global>]) -> Result<(), NoMemory>
        requires { are_new (keys_of (entries_of self.old)) keys.now ≡ true }
        ensures more { OnOk result (entries_of self.new ≡ entries_of self.old ++ entries keys.now (map shared_unit units.now)) }
        ensures begins { take (length (entries_of self.old)) (entries_of self.new) ≡ entries_of self.old }
    {
        let mut rest = units;
        for key in keys {
            let Some((unit, behind)) = rest.split_first() else {
                return Ok(());
            };
            self.add(key, unit)?;
            rest = behind;
        }
        Ok(())
    }

    // Units of these keys more, behind the others. Want of memory is `NoMemory`: then the units stay.
    pub(crate) fn add_or_cut(
        &mut self,
        keys: &[Key],
        units: &[Arc<Unit, Global>],
    ) -> Result<(), NoMemory>
        requires { are_new (keys_of (entries_of self.old)) keys.now ≡ true }
        ensures more { OnOk result (entries_of self.new ≡ entries_of self.old ++ entries keys.now (map shared_unit units.now)) }
        ensures same { OnErr result (entries_of self.new ≡ entries_of self.old) }
    {
        let len = self.len();
        match self.add_all(keys, units) {
            Ok(()) => Ok(()),
            Err(refused) => {
                self.cut(len);
                Err(refused)
            }
        }
    }

    /// A registry of its own that holds the same in the same order. Keys and units are shared.
    pub fn copy(&self) -> Result<Registry, NoMemory>
        ensures { IfOk result (λ r. entries_of r ≡ entries_of self.now) }
    {
        let mut copy = Registry::new(self.alloc);
        copy.units.reserve(self.units.len())?;
        for (key, unit) in &self.units {
            copy.add(key, unit)?;
        }
        Ok(copy)
    }
}
