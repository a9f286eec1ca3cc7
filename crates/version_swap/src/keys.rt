// The keys of jobs, and the first of each.
ghost use Rattle.std.specs.Prelude.{◌≡◌, [], map, IfOk, OnOk};
ghost use Rattle.std.specs.List.{IsDistinct};
ghost use Rattle.module_registry.specs.Keys.{same};
ghost use Rattle.version_swap.specs.FirstKeys as f;

use indexmap::IndexSet;
use ls_text::{Names, NoMemory};
use module_registry::{BuildJob, Key};
use std::alloc::Global;

/// The keys of jobs, by the names of this table.
pub fn keys_of(alloc: Global, names: &Names, jobs: Vec<BuildJob>) -> Result<Vec<Key>, NoMemory>
    ensures { IfOk result (λ ks. ks.items ≡ map (f.key_of names.now) jobs.items) }
{
    let mut keys = Vec::with_capacity(alloc, jobs.len())?;
    for job in jobs {
        keys.push(Key::new(alloc, names, job)?)?;
    }
    Ok(keys)
}

// One key more, where none that is equal to it is among them.
fn add(keys: &mut IndexSet<Key>, key: &Key) -> Result<(), NoMemory>
    ensures { OnOk result (keys.new.keys ≡ f.with_key keys.old.keys key.now) }
{
    keys.insert(key.clone()?)?;
    Ok(())
}

// Copies of keys, which share their texts and jobs.
fn copies(alloc: Global, keys: &[Key]) -> Result<Vec<Key>, NoMemory>
    ensures { IfOk result (λ ks. ks.items ≡ keys.now) }
{
    let mut copies = Vec::with_capacity(alloc, keys.len())?;
    for key in keys {
        copies.push(key.clone()?)?;
    }
    Ok(copies)
}

/// Copies of keys, of equal ones the first.
pub fn first_keys(alloc: Global, keys: &[Key]) -> Result<Vec<Key>, NoMemory>
    ensures first { IfOk result (λ ks. ks.items ≡ f.first_keys [] keys.now) }
    ensures distinct { IfOk result (λ ks. IsDistinct same ks.items) }
{
    let mut first = IndexSet::new(alloc);
    for key in keys {
        add(&mut first, key)?;
    }
    copies(alloc, first.as_slice())
}
