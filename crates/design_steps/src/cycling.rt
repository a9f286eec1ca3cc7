// One cycle of a program, in place.
ghost use Rattle.std.specs.Prelude.{◌≡◌, ◌<◌, ◌+◌, ◌*◌, ℕ, List, IsTrue, length, map};
ghost use Rattle.typed_ir.specs.Cycles.{wires, step};
ghost use Rattle.typed_ir.specs.Linkeds.{flat};
ghost use Rattle.word_steps.specs.Sound.{are_sound};
ghost use Rattle.word_steps.specs.Walks.{env_of, walk, at};
ghost use Rattle.design_steps.specs.Moves.{block};
ghost use Rattle.design_steps.specs.Programs.{IsProgramOf, IsAt, values_in, seen_in};

use crate::carrying::carry;
use crate::program::Program;
use crate::signal_words::place_above;
use typed_ir::Linked;
use word_steps::walk;

// Where the first register stands.
fn first_place(count: usize, end: usize) -> usize
    requires { 3 * count + 1 < end }
    ensures { result ≡ 3 * count + 1 }
{
    3 * count + 1
}

impl Program {
    /// Settles the wires, whatever they hold: each has its value where it stands. It takes no memory.
    pub fn settle(&self, linked: &Linked, words: &mut [u128])
        requires program { ∥ IsProgramOf self.now linked.now ∥₁ }
        requires long { length words.old ≡ length self.now.beginning.items }
        ensures value { (state inputs : List ℕ) → IsAt self.now linked.now state inputs words.old
            → seen_in self.now words.new ≡ wires (flat linked.now.design) state inputs }
        ensures ready { (state inputs : List ℕ) → IsAt self.now linked.now state inputs words.old → IsAt self.now linked.now state inputs words.new }
    {
        let _linked = linked;
        walk(&self.settling, words);
    }

    // The clocked blocks over settled wires: all of them read what is there now, and then the registers go on to their next values, which
    // begin as what the registers have. It takes no memory.
    fn clock(&self, linked: &Linked, words: &mut [u128])
        requires sound { IsTrue (are_sound (length words.old) self.now.clocking.items) }
        requires room { 3 * length linked.now.design.signals.items + 2 * length linked.now.design.registers.items + 1 < length words.old }
        ensures { env_of words.new ≡ block (3 * length linked.now.design.signals.items + length linked.now.design.registers.items + 1)
            (3 * length linked.now.design.signals.items + 1) (length linked.now.design.registers.items)
            (walk self.now.clocking.items (at 0 (env_of words.old))).words }
    {
        let many = linked.design.registers.len();
        let own = first_place(linked.design.signals.len(), words.len());
        let next = place_above(own, many, words.len());
        walk(&self.clocking, words);
        carry(next, own, many, words);
    }

    /// One cycle: the wires settle, and the registers go on to their next values. Nothing is cleared before or after it, and it takes no
    /// memory.
    pub fn cycle(&self, linked: &Linked, words: &mut [u128])
        requires program { ∥ IsProgramOf self.now linked.now ∥₁ }
        requires long { length words.old ≡ length self.now.beginning.items }
        ensures value { (state inputs : List ℕ) → IsAt self.now linked.now state inputs words.old
            → map (values_in self.now words.new) linked.now.design.registers.items ≡ step (flat linked.now.design) state inputs }

        // It is ready for the next cycle under the same inputs.
        ensures ready { (state inputs : List ℕ) → IsAt self.now linked.now state inputs words.old
            → IsAt self.now linked.now (step (flat linked.now.design) state inputs) inputs words.new }
    {
        self.settle(linked, words);
        self.clock(linked, words);
    }
}
