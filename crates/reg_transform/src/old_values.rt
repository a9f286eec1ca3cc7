// From the state of a design to the values of its registers by their keys.
ghost use Rattle.std.specs.Prelude.{◌≡◌, Some, if◌then◌else◌, IfOk, length};
ghost use Rattle.reg_transform.specs.Found.{Key, key_of, same_key, value_in};
ghost use Rattle.reg_transform.specs.Numbers.{numbers_in, value_by};
ghost use Rattle.reg_transform.specs.Regs.{registers_in};
ghost use Rattle.reg_transform.specs.States.{state_values};

use crate::reading::{key_at, signal_at};
use crate::register_key::RegisterKey;
use crate::regs::Regs;
use indexmap::IndexMap;
use ls_text::NoMemory;
use state_layout::SlotState;
use std::alloc::Global;
use typed_ir::RegisterId;

/// The value of the first register of each key. A key is found by its hash.
#[derive(Drop)]
pub struct OldValues {
    by_key: IndexMap<RegisterKey, u128>,
}

impl OldValues {
    /// The value of the first register of the key.
    pub fn get(&self, key: RegisterKey) -> Option<u128>
        ensures { result ≡ value_in self.now (key_of key) }
    {
        match self.by_key.get(&key) {
            Some(value) => Some(*value),
            None => None,
        }
    }

    // The last value that is put in is the one that is found.
    fn put(&mut self, key: RegisterKey, value: u128) -> Result<(), NoMemory>
        ensures { IfOk result (λ _. (k : Key) → value_in self.new k ≡ (if same_key (key_of key) k then Some value else value_in self.old k)) }
    {
        self.by_key.insert(key, value)?;
        Ok(())
    }
}

/// The values that the registers have in a state, where these are the numbers of the instances' paths.
pub fn old_values(
    alloc: Global,
    regs: &Regs<'_>,
    numbers: &[usize],
    state: &SlotState,
) -> Result<OldValues, NoMemory>
    requires numbered { length numbers.now ≡ length regs.now.instances.now.rows.items }
    requires one { length state.now ≡ length regs.now.registers.now }
    ensures { IfOk result (λ values. (key : Key)
        → value_in values key ≡ value_by (numbers_in numbers.now regs.now) (registers_in regs.now) (state_values state.now) key) }
{
    let mut values = OldValues {
        by_key: IndexMap::with_capacity(alloc, regs.registers.len())?,
    };
    let mut left = regs.registers.len();
    while left > 0 {
        left -= 1;
        let signal = signal_at(regs, left);
        let key = key_at(numbers, signal);
        let value = state.read(RegisterId(left)).value;
        values.put(key, value)?;
    }
    Ok(values)
}
