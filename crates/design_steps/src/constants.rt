// Constants, and where each stands.
ghost use Rattle.std.specs.Prelude.{◌≡◌, IfOk};
ghost use Rattle.design_steps.specs.Pools.{place_in};

use indexmap::IndexSet;
use ls_text::NoMemory;

/// Constants, each once, one after another from the place `first` on.
#[derive(Drop)]
pub struct Constants {
    pub first: u32,
    pub values: IndexSet<u128>,
}

impl Constants {
    /// Where a constant stands; the place behind all where it is none of them. A place above the largest number is `NoMemory`.
    pub fn place(&self, value: u128) -> Result<u32, NoMemory>
        ensures { IfOk result (λ place. place ≡ place_in self.now value) }
    {
        let index = match self.values.get_index_of(&value) {
            Some(index) => index,
            None => self.values.len(),
        };
        if index > 0xffff_ffff {
            return Err(NoMemory);
        }
        self.first.checked_add(index as u32).ok_or(NoMemory)
    }
}
