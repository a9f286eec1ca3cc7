// Data inputs, as a row gives them.
ghost use Rattle.std.specs.Prelude.{◌≡◌, ◌<◌, ℕ, List, map, length, slice_index};
ghost use Rattle.typed_ir.specs.Cycles.{fill, input};
ghost use Rattle.typed_ir.specs.Valuations.{put};
ghost use Rattle.design_steps.specs.Programs.{AreHeld, IsAt, values_in};
ghost use Rattle.cycle_eval.specs.Designs.{design_flat};
ghost use Rattle.cycle_eval.specs.Inputs.{row_values, input_width_of};

use crate::design::Design;
use bits::Bits;
use ls_text::NameId;
use stimulus::Row;

impl Design {
    // Gives a data input the value that a row has for its name, cut to its width, and 0 where the name isn't set.
    fn put_input(&self, place: usize, row: &Row, words: &mut [u128])
        requires long { length words.old ≡ length self.now.program.beginning.items }
        requires there { place < length self.now.linked.design.inputs.items }
        ensures value { values_in self.now.program words.new ≡ put (values_in self.now.program words.old) (slice_index self.now.linked.design.inputs.items place)
            (slice_index (input (design_flat self.now) (row_values (design_flat self.now) row.now)) place) }
        ensures held { AreHeld self.now.program self.now.linked words.old → AreHeld self.now.program self.now.linked words.new }
    {
        let design = &self.linked.design;
        let input = design.inputs[place];
        let number = input.index();
        let signal = &design.signals[number];
        let value = Bits::new(signal.width, row.get(signal.name));
        self.program.put(&self.linked, input, value.value, words);
    }

    /// Sets the data inputs to what a row gives: each the value of its name, cut to its width, and 0 where the name isn't set. All
    /// else stays. It takes no memory.
    pub(crate) fn write_inputs(&self, words: &mut [u128], row: &Row)
        requires { length words.old ≡ length self.now.program.beginning.items }
        ensures value { values_in self.now.program words.new ≡ fill (design_flat self.now).inputs
            (input (design_flat self.now) (row_values (design_flat self.now) row.now)) (values_in self.now.program words.old) }
        ensures registers { map (values_in self.now.program words.new) self.now.linked.design.registers.items
            ≡ map (values_in self.now.program words.old) self.now.linked.design.registers.items }

        // Whatever the inputs were, it is ready for those of the row.
        ensures ready { (state inputs : List ℕ) → IsAt self.now.program self.now.linked state inputs words.old
            → IsAt self.now.program self.now.linked state (input (design_flat self.now) (row_values (design_flat self.now) row.now)) words.new }
    {
        let mut left = self.linked.design.inputs.len();
        while left > 0 {
            left -= 1;
            self.put_input(left, row, words);
        }
    }

    /// The width of the data input of that name, in bits; None exactly where no data input has it.
    pub fn input_width(&self, name: NameId) -> Option<u8>
        ensures { result ≡ input_width_of (design_flat self.now) name.0 }
    {
        let design = &self.linked.design;
        for input in &design.inputs {
            let place = input.index();
            let signal = &design.signals[place];
            if signal.name == name {
                return Some(signal.width);
            }
        }
        None
    }
}
