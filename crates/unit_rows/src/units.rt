// Jobs to their keys, and keys to their units.
use crate::stock::Stock;
use indexmap::IndexSet;
use ls_text::{Names, NoMemory, Refusal};
use module_registry::{BuildJob, Ensured, Key, Registry};
use std::alloc::Global;
use std::sync::Arc;
use std::thread::Threads;
use typed_ir::Unit;

// The digest that all keys have where they are alike.
const ONE_DIGEST: [u8; 32] = [0; 32];

// The key of a job.
fn key_of(alloc: Global, names: &Names, alike: bool, job: BuildJob) -> Result<Key, NoMemory> {
    let key = Key::new(alloc, names, job)?;
    if alike {
        Ok(key.with_digest(ONE_DIGEST))
    } else {
        Ok(key)
    }
}

/// The key of each job, in their order; with one digest for all where they are to be alike.
pub fn keys_of(
    alloc: Global,
    names: &Names,
    alike: bool,
    jobs: Vec<BuildJob>,
) -> Result<Vec<Key>, NoMemory> {
    let mut keys = Vec::new(alloc);
    for job in jobs {
        keys.push(key_of(alloc, names, alike, job)?)?;
    }
    Ok(keys)
}

/// These keys, each once, in the order in which they come first.
pub fn each_once(alloc: Global, keys: &[Key]) -> Result<IndexSet<Key>, NoMemory> {
    let mut once = IndexSet::new(alloc);
    for key in keys {
        once.insert(key.clone()?)?;
    }
    Ok(once)
}

/// Has the units of these keys held.
pub fn ensure<R: Threads + Sync>(
    rt: &R,
    alloc: Global,
    stock: &mut Stock,
    keys: &IndexSet<Key>,
) -> Result<Ensured, Refusal> {
    stock
        .registry
        .ensure(rt, alloc, &mut stock.forge, keys.as_slice())
}

/// The unit that is held under each of these keys, in their order; of a key that isn't held, none.
pub fn units_of(
    alloc: Global,
    registry: &Registry,
    keys: &[Key],
) -> Result<Vec<Arc<Unit, Global>>, NoMemory> {
    let mut units = Vec::new(alloc);
    for key in keys {
        if let Some(unit) = registry.unit(key)? {
            units.push(unit)?;
        }
    }
    Ok(units)
}
