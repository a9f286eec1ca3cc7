// The slots of registers, one behind the other.
ghost use Rattle.std.specs.Prelude.{◌≡◌, ◌≤◌, ◌<◌, ◌+◌, ◌++◌, ◌∷◌, [], ℕ, true, length, slice_index, OnOk, IfErr};
ghost use Rattle.state_layout.specs.Words.{words_of, IsTooMany, IsTooManyWhere};
ghost use Rattle.state_layout.specs.Slots.{slot_size, first_word};

use crate::slot::Slot;
use ls_text::{At, Fault, NameList, Refusal};
use std::alloc::Global;
use std::marker::Model;
use typed_ir::RegisterId;

// The words of 64 bits that a state may take.
const STATE_WORDS: u32 = 65_536;

/// Where the registers of a design stand in a state: each in whole words of its own, at most 65,536 together. Contracts see it as the list of
/// the registers' widths.
#[derive(Drop)]
pub struct Layout {
    slots: Vec<Slot>,
    words: u32,
}

impl Model for Layout {
    ghost use Rattle.std.specs.Prelude.{◌≡◌, ◌≤◌, ℕ, List, map};
    ghost use Rattle.state_layout.specs.Words.{words_of};
    ghost use Rattle.state_layout.specs.Slots.{first_words};
    ghost use Rattle.state_layout.specs.declared.slot.Slot.{Slot};

    ghost Value = { List ℕ };

    ghost view = { λ l. map (λ (s : Slot). s.width) l.slots.items };

    ghost invariant = { λ l. (map (λ (s : Slot). s.first) l.slots.items ≡ first_words 0 (map (λ (s : Slot). s.width) l.slots.items))
        × (l.words ≡ words_of (map (λ (s : Slot). s.width) l.slots.items)) × (l.words ≤ 65536) };
}

// The fault TooMany.
fn too_many(alloc: Global) -> Refusal
    ensures { IsTooMany result }
{
    Refusal::Fault(Fault {
        code: 40,
        at: At::Edit,
        names: NameList::new(Vec::new(alloc)),
    })
}

impl Layout {
    // The layout without a register.
    pub(crate) fn new(alloc: Global) -> Layout
        ensures { result ≡ [] }
    {
        Layout {
            slots: Vec::new(alloc),
            words: 0,
        }
    }

    // One register more.
    pub(crate) fn add(&mut self, alloc: Global, width: u8) -> Result<(), Refusal>
        requires at_least_one { 1 ≤ width }
        requires at_most_128 { width ≤ 128 }
        ensures ok { OnOk result (self.new ≡ self.old ++ width ∷ []) }
        ensures few { OnOk result (words_of self.new ≤ 65536) }
        ensures refused { IfErr result (IsTooManyWhere (65536 < words_of (self.old ++ width ∷ []))) }
    {
        let more = (u32::from(width) + 63) / 64;
        if more > STATE_WORDS - self.words {
            return Err(too_many(alloc));
        }
        self.slots.push(Slot {
            first: self.words,
            width,
        })?;
        self.words += more;
        Ok(())
    }

    /// How many registers there are.
    pub fn len(&self) -> usize
        ensures { result ≡ length self.now }
    {
        self.slots.len()
    }

    /// How many words a state has, at most 65,536.
    pub fn words(&self) -> u32
        ensures words { result ≡ words_of self.now }
        ensures few { result ≤ 65536 }
    {
        self.words
    }

    /// The slot of a register.
    pub fn slot(&self, register: RegisterId) -> Slot
        requires { register < length self.now }
        ensures first { result.first ≡ first_word self.now register }
        ensures width { result.width ≡ slice_index self.now register }
        ensures within { first_word self.now register + slot_size result.width ≤ words_of self.now }
    {
        self.slots[register.index()]
    }

    /// Whether both have registers of the same widths, in the same order.
    pub fn same(&self, other: &Layout) -> bool
        ensures same { result ≡ true → self.now ≡ other.now }
        ensures all { self.now ≡ other.now → result ≡ true }
    {
        if self.slots.len() != other.slots.len() {
            return false;
        }
        for index in 0..self.slots.len() {
            if self.slots[index].width != other.slots[index].width {
                return false;
            }
        }
        true
    }
}
