// Units for keys: those that are held, and those that are made.
ghost use Rattle.std.specs.Prelude.{◌≡◌, ◌++◌, ◌+◌, true, map, length, Ok, IfOk, IfErr, OnOk, OnErr};
ghost use Rattle.std.specs.List.{IsDistinct, All};
ghost use Rattle.module_registry.specs.Building.{Refuses};
ghost use Rattle.module_registry.specs.Keys.{same, jobs_of};
ghost use Rattle.module_registry.specs.Entries.{keys_of, is_among, if_missing, missing, ensured, MadeAt, Holds};
ghost use Rattle.module_registry.specs.UnitViews.{built_of, shared_unit};
ghost use Rattle.module_registry.specs.Views.{entries_of};

use crate::ensured::Ensured;
use crate::forge::Forge;
use crate::key::Key;
use crate::registry::Registry;
use ls_text::{NoMemory, Refusal};
use std::alloc::Global;
use std::sync::Arc;
use typed_ir::Unit;

// How many keys there are; 2^32 or more are want of memory.
fn count(keys: &[Key]) -> Result<u32, NoMemory>
    ensures { IfOk result (λ n. n ≡ length keys.now) }
{
    let count = keys.len();
    if count > u32::MAX as usize {
        return Err(NoMemory);
    }
    Ok(count as u32)
}

// The units, each to be shared.
fn shared(alloc: Global, units: Vec<Unit>) -> Result<Vec<Arc<Unit, Global>>, NoMemory>
    ensures { IfOk result (λ us. map shared_unit us.items ≡ map built_of units.items) }
{
    let mut shared = Vec::new(alloc);
    for unit in units {
        let one = Arc::new(alloc, unit)?;
        shared.push(one)?;
    }
    Ok(shared)
}

impl Registry {
    // Adds a copy of a key, where it isn't held.
    fn add_missing(&self, missing: &mut Vec<Key>, key: &Key) -> Result<(), NoMemory>
        ensures { OnOk result (missing.new.items ≡ missing.old.items ++ if_missing (keys_of (entries_of self.now)) key.now) }
    {
        if self.units.contains_key(key) {
            return Ok(());
        }
        missing.push(key.clone()?)?;
        Ok(())
    }

    // Copies of the keys that aren't held, in their order.
    fn missing(&self, alloc: Global, keys: &[Key]) -> Result<Vec<Key>, NoMemory>
        ensures { IfOk result (λ ks. ks.items ≡ missing (keys_of (entries_of self.now)) keys.now) }
    {
        let mut missing = Vec::new(alloc);
        for key in keys {
            self.add_missing(&mut missing, key)?;
        }
        Ok(missing)
    }

    /// Makes the units of those of these distinct keys that aren't held, in their order, and holds them behind the others.
    ///
    /// A refusal is the fault of the first of these jobs that has one, or want of memory, as it also answers 2^32 keys or more: then the
    /// registry stays. The help is what the forge asks for.
    pub fn ensure<R, F: Forge<R>>(
        &mut self,
        rt: &R,
        alloc: Global,
        forge: &mut F,
        keys: &[Key],
    ) -> Result<Ensured, Refusal>
        requires distinct { IsDistinct same keys.now }
        requires ready { F.ready rt.now }
        ensures held { OnOk result (ensured F.builds (entries_of self.old) keys.now ≡ Ok (entries_of self.new)) }
        ensures refused { IfErr result (λ e. Refuses e (ensured F.builds (entries_of self.old) keys.now)) }
        ensures stays { OnErr result (entries_of self.new ≡ entries_of self.old) }
        ensures made { OnOk result (F.made forge.new ≡ F.made forge.old ++ jobs_of (missing (keys_of (entries_of self.old)) keys.now)) }
        ensures made_at { IfErr result (λ e. MadeAt e (F.made forge.old) (jobs_of (missing (keys_of (entries_of self.old)) keys.now)) (F.made forge.new)) }
        ensures built { IfOk result (λ n. n.built ≡ length (missing (keys_of (entries_of self.old)) keys.now)) }
        ensures kept { IfOk result (λ n. n.kept + n.built ≡ length keys.now) }
        ensures all { OnOk result (All (λ k. is_among k (keys_of (entries_of self.new)) ≡ true) keys.now) }
        ensures holds { Holds F.builds (entries_of self.old) → Holds F.builds (entries_of self.new) }
    {
        let asked = count(keys)?;
        let missing = self.missing(alloc, keys)?;
        let units = forge.make(rt, alloc, &missing)?;
        let units = shared(alloc, units)?;
        self.add_or_cut(&missing, &units)?;
        let built = missing.len() as u32;
        Ok(Ensured {
            built,
            kept: asked - built,
        })
    }
}
