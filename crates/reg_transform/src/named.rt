// The names that operations have named.
ghost use Rattle.std.specs.Prelude.{◌≡◌, ◌||◌, Some, IfOk, false};
ghost use Rattle.reg_transform.specs.Found.{is_among, name_of};
ghost use Rattle.reg_transform.specs.Greatest.{faults, names, twice_by};
ghost use Rattle.reg_transform.specs.OperationFaults.{are_one, fault_if, new_of, old_of};
ghost use Rattle.reg_transform.specs.Registers.{RegisterName, is_same};

use crate::breach::Breach;
use crate::breaches::first_of;
use crate::qualified_name::QualifiedName;
use indexmap::IndexSet;
use ls_text::NoMemory;
use reg_ops::RegOp;
use std::alloc::Global;

/// The registers of the old design, and those of the new one, that operations have named. A name is found by its hash.
#[derive(Drop)]
pub struct Named {
    olds: IndexSet<QualifiedName>,
    news: IndexSet<QualifiedName>,
}

// The register of the old design that an operation names.
fn old_name(op: &RegOp) -> Option<QualifiedName>
    ensures { names result ≡ old_of op.now }
{
    match *op {
        RegOp::Rename {
            in_module,
            from,
            ..
        } => Some(QualifiedName {
            in_module,
            name: from,
        }),
        RegOp::Create { .. } => None,
        RegOp::Delete { in_module, reg } => Some(QualifiedName {
            in_module,
            name: reg,
        }),
    }
}

// That of the new one.
fn new_name(op: &RegOp) -> Option<QualifiedName>
    ensures { names result ≡ new_of op.now }
{
    match *op {
        RegOp::Rename { in_module, to, .. } => Some(QualifiedName {
            in_module,
            name: to,
        }),
        RegOp::Create { in_module, reg, .. } => Some(QualifiedName {
            in_module,
            name: reg,
        }),
        RegOp::Delete { .. } => None,
    }
}

// Notes a name, and tells whether it was there.
fn note(known: &mut IndexSet<QualifiedName>, name: QualifiedName) -> Result<bool, NoMemory>
    ensures was { IfOk result (λ was. was ≡ is_among known.old.keys (name_of name)) }
    ensures more { IfOk result (λ _. (n : RegisterName) → is_among known.new.keys n ≡ (is_same (name_of name) n || is_among known.old.keys n)) }
{
    let is_new = known.insert(name)?;
    Ok(!is_new)
}

// Notes the name that an operation has, which none may have had before.
fn note_once(
    known: &mut IndexSet<QualifiedName>,
    name: Option<QualifiedName>,
) -> Result<Option<Breach>, NoMemory>
    ensures fault { IfOk result (λ fault. faults fault ≡ fault_if 52 (is_among known.old.keys) (names name)) }
    ensures more { IfOk result (λ _. (n : RegisterName) → is_among known.new.keys n ≡ (are_one (names name) (Some n) || is_among known.old.keys n)) }
{
    let Some(shown) = name else {
        return Ok(None);
    };
    if note(known, shown)? {
        Ok(Some(Breach { code: 52, shown }))
    } else {
        Ok(None)
    }
}

impl Named {
    /// No names.
    pub fn new(alloc: Global) -> Named
        ensures old { (n : RegisterName) → is_among result.olds.keys n ≡ false }
        ensures new { (n : RegisterName) → is_among result.news.keys n ≡ false }
    {
        Named {
            olds: IndexSet::new(alloc),
            news: IndexSet::new(alloc),
        }
    }

    /// Notes what an operation names. It breaks 52 where an earlier one has named the same.
    pub fn note(&mut self, op: &RegOp) -> Result<Option<Breach>, NoMemory>
        ensures fault { IfOk result (λ fault. faults fault ≡ twice_by (is_among self.old.olds.keys) (is_among self.old.news.keys) op.now) }
        ensures old { IfOk result (λ _. (n : RegisterName) → is_among self.new.olds.keys n ≡ (are_one (old_of op.now) (Some n) || is_among self.old.olds.keys n)) }
        ensures new { IfOk result (λ _. (n : RegisterName) → is_among self.new.news.keys n ≡ (are_one (new_of op.now) (Some n) || is_among self.old.news.keys n)) }
    {
        let old = note_once(&mut self.olds, old_name(op))?;
        let new = note_once(&mut self.news, new_name(op))?;
        Ok(first_of(old, new))
    }
}
