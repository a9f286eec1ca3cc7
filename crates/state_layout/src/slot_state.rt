// States in shared pages.
ghost use Rattle.std.specs.Prelude.{◌≡◌, ◌<◌, ℕ, true, length, map, slice_get, slice_index, slice_set, Some, IfOk, OnOk, OnErr, ◌==◌};
ghost use Rattle.std.specs.Arc.{arc_value};
ghost use Rattle.typed_ir.specs.States.{sized_value};
ghost use Rattle.typed_ir.specs.Views.{widths};
ghost use Rattle.state_layout.specs.Slots.{state_widths};

use crate::layout::Layout;
use crate::putting::{put_value, slot_value};
use bits::Bits;
use ls_text::NoMemory;
use state_pages::Pages;
use std::alloc::Global;
use std::marker::Model;
use std::sync::Arc;
use typed_ir::RegisterId;

/// What the registers of a design have, in words of shared pages by a shared layout; bits that no register has are 0. Contracts see it
/// as a list of pairs, the width and the value of each register.
#[derive(Drop)]
pub struct SlotState {
    layout: Arc<Layout, Global>,
    pages: Pages,
}

impl Model for SlotState {
    ghost use Rattle.std.specs.Prelude.{ℕ, List};
    ghost use Rattle.std.specs.Arc.{arc_value};
    ghost use Rattle.state_layout.specs.Slots.{state_in, IsClean};

    ghost Value = { List (ℕ × ℕ) };

    ghost view = { λ s. state_in (arc_value s.layout) s.pages };

    ghost invariant = { λ s. IsClean (arc_value s.layout) s.pages };
}

impl SlotState {
    /// The state in which each register is 0. It takes memory for one page and for the list of pages.
    pub fn zeros(alloc: Global, layout: &Arc<Layout, Global>) -> Result<SlotState, NoMemory>
        ensures { IfOk result (λ s. s ≡ map (λ (w : ℕ). (w, 0)) (arc_value layout.now)) }
    {
        let pages = Pages::zero(alloc, layout.words())?;
        Ok(SlotState {
            layout: Arc::try_clone(layout)?,
            pages,
        })
    }

    /// The state in which the registers have these values, in their order.
    pub fn filled(
        alloc: Global,
        layout: &Arc<Layout, Global>,
        values: &[Bits],
    ) -> Result<SlotState, NoMemory>
        requires { widths values.now ≡ arc_value layout.now }
        ensures { IfOk result (λ s. s ≡ map sized_value values.now) }
    {
        let mut state = SlotState::zeros(alloc, layout)?;
        for place in 0..values.len() {
            state.write(RegisterId(place), values[place])?;
        }
        Ok(state)
    }

    /// How many registers there are.
    pub fn len(&self) -> usize
        ensures { result ≡ length self.now }
    {
        self.layout.len()
    }

    /// Whether there is no register.
    pub fn is_empty(&self) -> bool
        ensures { result ≡ (length self.now == 0) }
    {
        self.len() == 0
    }

    /// The value of a register, with its width.
    pub fn read(&self, register: RegisterId) -> Bits
        requires { register < length self.now }
        ensures { slice_get self.now register ≡ Some (result.width, result.value) }
    {
        let slot = self.layout.slot(register);
        let value = slot_value(&self.pages, slot);
        Bits {
            width: slot.width,
            value,
        }
    }

    /// Gives a register a value of its width, and leaves all others. Words that stay the same are not written. After want of memory the state is
    /// as before.
    pub fn write(&mut self, register: RegisterId, value: Bits) -> Result<(), NoMemory>
        requires there { register < length self.old }
        requires width { slice_index (state_widths self.old) register ≡ value.width }
        ensures ok { OnOk result (self.new ≡ slice_set self.old register (value.width, value.value)) }
        ensures err { OnErr result (self.new ≡ self.old) }
    {
        let slot = self.layout.slot(register);
        put_value(&mut self.pages, slot, value.value)
    }

    /// The same state once more. It takes no memory, and time that doesn't grow with the registers.
    pub fn share(&self) -> Result<SlotState, NoMemory>
        ensures { IfOk result (λ s. s ≡ self.now) }
    {
        Ok(SlotState {
            layout: Arc::try_clone(&self.layout)?,
            pages: self.pages.share()?,
        })
    }

    /// Where a page has the same words as the other state's page at that place, both states have one page from then on, whatever their
    /// layouts. The values stay. It takes no memory, and does nothing where this state was shared and not written since.
    pub fn share_with(&mut self, other: &SlotState)
        ensures { self.new ≡ self.old }
    {
        self.pages.share_with(&other.pages);
    }

    /// Whether both have the same registers by their widths, with the same values, in the same order.
    pub fn same(&self, other: &SlotState) -> bool
        ensures same { result ≡ true → self.now ≡ other.now }
        ensures all { self.now ≡ other.now → result ≡ true }
    {
        self.layout.same(&other.layout) && self.pages.same(&other.pages)
    }
}
