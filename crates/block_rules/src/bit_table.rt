// Sets of bits of signals as masks.
ghost use Rattle.std.specs.Prelude.{◌≡◌, ◌<◌, ◌&&◌, ◌||◌, ◌==◌, ℕ, IfOk, nat_lt, not, slice_index};
ghost use Rattle.typed_ir.specs.Valuations.{nowhere};
ghost use Rattle.typed_ir.specs.Touches.{has_bit};
ghost use Rattle.block_rules.specs.Tables.{size, bits_of};

use ls_text::NoMemory;
use std::alloc::Global;
use typed_ir::SignalId;

/// Some bits of signals: for each signal a mask from its lowest bit on.
#[derive(Drop)]
pub struct BitTable {
    masks: Vec<u128>,
}

impl BitTable {
    /// No bits, of so many signals. Want of memory is `NoMemory`.
    pub fn new(alloc: Global, signals: usize) -> Result<BitTable, NoMemory>
        ensures size { IfOk result (λ table. size table ≡ signals) }
        ensures blank { IfOk result (λ table. bits_of table ≡ nowhere) }
    {
        let masks = vec![in alloc; 0u128; signals]?;
        Ok(BitTable { masks })
    }

    /// The mask of a signal; none of its bits where the table has no such signal.
    pub fn mask(&self, signal: SignalId) -> u128
        ensures { result ≡ slice_index self.now.masks.items signal }
    {
        let place = signal.index();
        if place < self.masks.len() {
            self.masks[place]
        } else {
            0
        }
    }

    /// Adds bits of a signal; where the table has no such signal, it stays as it is.
    pub fn add(&mut self, signal: SignalId, mask: u128)
        ensures size { size self.new ≡ size self.old }
        ensures bits { (s i : ℕ) → i < 128
            → bits_of self.new s i ≡ (bits_of self.old s i || (nat_lt s (size self.old) && ((s == signal) && has_bit mask i))) }
    {
        let place = signal.index();
        if place < self.masks.len() {
            let old = self.masks[place];
            self.masks[place] = old | mask;
        }
    }

    /// Takes bits of a signal out.
    pub fn take(&mut self, signal: SignalId, mask: u128)
        ensures size { size self.new ≡ size self.old }
        ensures bits { (s i : ℕ) → bits_of self.new s i ≡ (bits_of self.old s i && not ((s == signal) && has_bit mask i)) }
    {
        let place = signal.index();
        if place < self.masks.len() {
            let old = self.masks[place];
            self.masks[place] = old ^ (old & mask);
        }
    }
}
