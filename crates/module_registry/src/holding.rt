// A registry, and what it holds.
ghost use Rattle.std.specs.Prelude.{◌≡◌, [], take, length, is_some, Result, IfOk};
ghost use Rattle.std.specs.List.{IsDistinct};
ghost use Rattle.std.specs.Option.{option_map};
ghost use Rattle.ls_text.specs.declared.fault.Fault.{Fault};
ghost use Rattle.module_registry.specs.declared.build_job.BuildJob.{BuildJob};
ghost use Rattle.module_registry.specs.Building.{Built};
ghost use Rattle.module_registry.specs.Keys.{same};
ghost use Rattle.module_registry.specs.Entries.{unit_under, is_among, keys_of, Holds};
ghost use Rattle.module_registry.specs.UnitViews.{shared_unit};
ghost use Rattle.module_registry.specs.Views.{entries_of};

use crate::key::Key;
use crate::registry::Registry;
use indexmap::IndexMap;
use ls_text::NoMemory;
use std::alloc::Global;
use std::sync::Arc;
use typed_ir::Unit;

impl Registry {
    /// A registry that holds nothing. It takes no memory.
    pub fn new(alloc: Global) -> Registry
        ensures empty { entries_of result ≡ [] }
        ensures holds { (builds : BuildJob → Result Built Fault) → Holds builds (entries_of result) }
    {
        Registry {
            alloc,
            units: IndexMap::new(alloc),
        }
    }

    /// How many units it holds.
    pub fn len(&self) -> usize
        ensures count { result ≡ length (entries_of self.now) }
        ensures once { IsDistinct same (keys_of (entries_of self.now)) }
    {
        self.units.len()
    }

    /// The unit that is held under a key, None where there is none. It takes no memory but for the count of a unit's owners.
    pub fn unit(&self, key: &Key) -> Result<Option<Arc<Unit, Global>>, NoMemory>
        ensures unit { IfOk result (λ u. option_map shared_unit u ≡ unit_under key.now (entries_of self.now)) }
        ensures found { IfOk result (λ u. is_some u ≡ is_among key.now (keys_of (entries_of self.now))) }
    {
        match self.units.get(key) {
            Some(unit) => Ok(Some(unit.clone()?)),
            None => Ok(None),
        }
    }

    /// The first `len` units stay. It takes no memory.
    pub fn cut(&mut self, len: usize)
        ensures entries { entries_of self.new ≡ take len (entries_of self.old) }
        ensures holds { (builds : BuildJob → Result Built Fault) → Holds builds (entries_of self.old) → Holds builds (entries_of self.new) }
    {
        self.units.truncate(len);
    }
}
