// States of registers put among words, and read out of them.
ghost use Rattle.std.specs.Prelude.{◌≡◌, ◌<◌, map, length, slice_index, IfOk};
ghost use Rattle.typed_ir.specs.Cycles.{fill, width_at};
ghost use Rattle.typed_ir.specs.Valuations.{put};
ghost use Rattle.design_steps.specs.Programs.{AreHeld, values_in};
ghost use Rattle.reg_transform.specs.States.{paired, state_values};
ghost use Rattle.state_layout.specs.Words.{register_widths};
ghost use Rattle.cycle_eval.specs.Designs.{design_flat};
ghost use Rattle.cycle_eval.specs.Kits.{Fits};

use crate::design::Design;
use bits::Bits;
use ls_text::NoMemory;
use state_layout::SlotState;
use typed_ir::RegisterId;

impl Design {
    // Gives a register among the words the value that it has in a state.
    fn load_register(&self, place: usize, from: &SlotState, words: &mut [u128])
        requires long { length words.old ≡ length self.now.program.beginning.items }
        requires fits { Fits (design_flat self.now) from.now }
        requires there { place < length self.now.linked.design.registers.items }
        ensures value { values_in self.now.program words.new ≡ put (values_in self.now.program words.old)
            (slice_index self.now.linked.design.registers.items place) (slice_index (state_values from.now) place) }
        ensures held { AreHeld self.now.program self.now.linked words.old → AreHeld self.now.program self.now.linked words.new }
    {
        let register = self.linked.design.registers[place];
        let value = from.read(RegisterId(place));
        self.program.put(&self.linked, register, value.value, words);
    }

    /// Puts the values of a state at its registers.
    pub(crate) fn load(&self, from: &SlotState, words: &mut [u128])
        requires long { length words.old ≡ length self.now.program.beginning.items }
        requires fits { Fits (design_flat self.now) from.now }
        ensures value { values_in self.now.program words.new
            ≡ fill self.now.linked.design.registers.items (state_values from.now) (values_in self.now.program words.old) }
        ensures held { AreHeld self.now.program self.now.linked words.old → AreHeld self.now.program self.now.linked words.new }
    {
        let mut left = self.linked.design.registers.len();
        while left > 0 {
            left -= 1;
            self.load_register(left, from, words);
        }
    }

    // What a register has among the words, with its width.
    fn register(&self, place: usize, words: &[u128]) -> Bits
        requires long { length words.now ≡ length self.now.program.beginning.items }
        requires held { AreHeld self.now.program self.now.linked words.now }
        requires there { place < length self.now.linked.design.registers.items }
        ensures width { result.width ≡ width_at (design_flat self.now) (slice_index self.now.linked.design.registers.items place) }
        ensures value { result.value ≡ values_in self.now.program words.now (slice_index self.now.linked.design.registers.items place) }
    {
        let design = &self.linked.design;
        let register = design.registers[place];
        let number = register.index();
        let signal = &design.signals[number];
        let word = self.program.value(&self.linked, register, words);
        Bits::new(signal.width, word)
    }

    /// The registers among the words, written into a share of a state. Words that stay the same aren't written, so pages in which nothing has
    /// changed are shared with it.
    pub(crate) fn state_of(&self, words: &[u128], from: &SlotState) -> Result<SlotState, NoMemory>
        requires long { length words.now ≡ length self.now.program.beginning.items }
        requires held { AreHeld self.now.program self.now.linked words.now }
        requires fits { Fits (design_flat self.now) from.now }
        ensures { IfOk result (λ s. s ≡ paired (register_widths (design_flat self.now))
            (map (values_in self.now.program words.now) self.now.linked.design.registers.items)) }
    {
        let mut state = from.share()?;
        for place in 0..self.linked.design.registers.len() {
            let value = self.register(place, words);
            state.write(RegisterId(place), value)?;
        }
        Ok(state)
    }
}
