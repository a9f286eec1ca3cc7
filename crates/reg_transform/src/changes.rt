// From a list of operations to what each says of a register of the new design.
ghost use Rattle.std.specs.Prelude.{◌≡◌, Some, if◌then◌else◌, IfOk};
ghost use Rattle.std.specs.Option.{option_map, option_or};
ghost use Rattle.reg_transform.specs.Carrying.{created, created_by, renamed, renamed_by};
ghost use Rattle.reg_transform.specs.Found.{created_in, renamed_in, name_of};
ghost use Rattle.reg_transform.specs.Registers.{RegisterName, is_same};

use crate::qualified_name::QualifiedName;
use indexmap::IndexMap;
use ls_text::{NameId, NoMemory};
use reg_ops::RegOp;
use std::alloc::Global;

/// The value of the first creation of each register, and the old name of the first renaming to it. A name is found by its hash.
#[derive(Drop)]
pub struct Changes {
    created: IndexMap<QualifiedName, u128>,
    renamed: IndexMap<QualifiedName, NameId>,
}

impl Changes {
    /// The value that the register is created with.
    pub fn created(&self, name: QualifiedName) -> Option<u128>
        ensures { result ≡ created_in self.now (name_of name) }
    {
        match self.created.get(&name) {
            Some(value) => Some(*value),
            None => None,
        }
    }

    /// The old name of the register.
    pub fn renamed(&self, name: QualifiedName) -> Option<NameId>
        ensures { option_map (λ n. n.0) result ≡ renamed_in self.now (name_of name) }
    {
        match self.renamed.get(&name) {
            Some(from) => Some(*from),
            None => None,
        }
    }

    fn create(&mut self, name: QualifiedName, value: u128) -> Result<(), NoMemory>
        ensures created { IfOk result (λ _. (n : RegisterName) → created_in self.new n ≡ (if is_same (name_of name) n then Some value else created_in self.old n)) }
        ensures renamed { IfOk result (λ _. self.new.renamed ≡ self.old.renamed) }
    {
        self.created.insert(name, value)?;
        Ok(())
    }

    fn rename(&mut self, name: QualifiedName, from: NameId) -> Result<(), NoMemory>
        ensures renamed { IfOk result (λ _. (n : RegisterName) → renamed_in self.new n ≡ (if is_same (name_of name) n then Some from.0 else renamed_in self.old n)) }
        ensures created { IfOk result (λ _. self.new.created ≡ self.old.created) }
    {
        self.renamed.insert(name, from)?;
        Ok(())
    }

    // The last operation that is put in is the one that is found.
    fn put(&mut self, op: &RegOp) -> Result<(), NoMemory>
        ensures created { IfOk result (λ _. (name : RegisterName) → created_in self.new name ≡ option_or (created_by op.now name) (created_in self.old name)) }
        ensures renamed { IfOk result (λ _. (name : RegisterName) → renamed_in self.new name ≡ option_or (renamed_by op.now name) (renamed_in self.old name)) }
    {
        match *op {
            RegOp::Rename {
                in_module,
                from,
                to,
            } => self.rename(
                QualifiedName {
                    in_module,
                    name: to,
                },
                from,
            ),
            RegOp::Create {
                in_module,
                reg,
                value,
            } => self.create(
                QualifiedName {
                    in_module,
                    name: reg,
                },
                value,
            ),
            RegOp::Delete { .. } => Ok(()),
        }
    }
}

/// What these operations say, of several on one register the first.
pub fn changes_of(alloc: Global, ops: &[RegOp]) -> Result<Changes, NoMemory>
    ensures created { IfOk result (λ changes. (name : RegisterName) → created_in changes name ≡ created ops.now name) }
    ensures renamed { IfOk result (λ changes. (name : RegisterName) → renamed_in changes name ≡ renamed ops.now name) }
{
    let mut changes = Changes {
        created: IndexMap::new(alloc),
        renamed: IndexMap::new(alloc),
    };
    let mut left = ops.len();
    while left > 0 {
        left -= 1;
        changes.put(&ops[left])?;
    }
    Ok(changes)
}
