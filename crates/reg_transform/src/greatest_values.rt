// From the registers of a design to the greatest value that fits those of a name.
ghost use Rattle.std.specs.Prelude.{◌≡◌, ◌-◌, ◌^◌, Some, if◌then◌else◌, IfOk};
ghost use Rattle.std.specs.Option.{is_some};
ghost use Rattle.reg_transform.specs.Found.{greatest_in, name_of};
ghost use Rattle.reg_transform.specs.Greatest.{greatest, is_passed, lesser};
ghost use Rattle.reg_transform.specs.Registers.{RegisterName, is_same};
ghost use Rattle.reg_transform.specs.Regs.{registers_in};

use crate::qualified_name::QualifiedName;
use crate::reading::{name_at, signal_at};
use crate::regs::Regs;
use bits::Bits;
use indexmap::IndexMap;
use ls_text::NoMemory;
use std::alloc::Global;
use typed_ir::Signal;

/// The greatest value that fits the registers of each name in all instances. A name is found by its hash.
#[derive(Drop)]
pub struct GreatestValues {
    by_name: IndexMap<QualifiedName, u128>,
}

// The greatest value of a signal's width.
fn greatest_of(signal: &Signal) -> u128
    ensures { result ≡ 2 ^ signal.now.width - 1 }
{
    Bits::new(signal.width, 0).not().value
}

impl GreatestValues {
    fn get(&self, name: QualifiedName) -> Option<u128>
        ensures { result ≡ greatest_in self.now (name_of name) }
    {
        match self.by_name.get(&name) {
            Some(value) => Some(*value),
            None => None,
        }
    }

    fn put(&mut self, name: QualifiedName, value: u128) -> Result<(), NoMemory>
        ensures { IfOk result (λ _. (n : RegisterName) → greatest_in self.new n ≡ (if is_same (name_of name) n then Some value else greatest_in self.old n)) }
    {
        self.by_name.insert(name, value)?;
        Ok(())
    }

    // The lesser of this value and what there is.
    fn lessened(&self, name: QualifiedName, value: u128) -> u128
        ensures { result ≡ lesser value (greatest_in self.now (name_of name)) }
    {
        match self.get(name) {
            Some(known) => value.min(known),
            None => value,
        }
    }

    /// Whether a register has the name.
    pub fn has(&self, name: QualifiedName) -> bool
        ensures { result ≡ is_some (greatest_in self.now (name_of name)) }
    {
        self.get(name).is_some()
    }

    /// Whether a register of the name is too narrow for the value.
    pub fn is_passed(&self, name: QualifiedName, value: u128) -> bool
        ensures { result ≡ is_passed (greatest_in self.now (name_of name)) value }
    {
        match self.get(name) {
            Some(most) => most < value,
            None => false,
        }
    }
}

/// The greatest values of these registers.
pub fn greatest_values(alloc: Global, regs: &Regs<'_>) -> Result<GreatestValues, NoMemory>
    ensures { IfOk result (λ values. (name : RegisterName) → greatest_in values name ≡ greatest (registers_in regs.now) name) }
{
    let mut values = GreatestValues {
        by_name: IndexMap::new(alloc),
    };
    let mut left = regs.registers.len();
    while left > 0 {
        left -= 1;
        let signal = signal_at(regs, left);
        let name = name_at(signal);
        let value = values.lessened(name, greatest_of(signal));
        values.put(name, value)?;
    }
    Ok(values)
}
