// The words of a program, and the values of signals among them.
ghost use Rattle.std.specs.Prelude.{◌≡◌, ◌<◌, ◌+◌, ◌^◌, [], length, slice_index, IfOk};
ghost use Rattle.typed_ir.specs.Flats.{signal_widths};
ghost use Rattle.typed_ir.specs.Valuations.{put};
ghost use Rattle.word_steps.specs.Walks.{env_of};
ghost use Rattle.design_steps.specs.Layings.{own_plan};
ghost use Rattle.design_steps.specs.Moves.{moved};
ghost use Rattle.design_steps.specs.Programs.{IsProgramOf, AreHeld, IsAt, values_in};

use crate::layout::Layout;
use crate::program::Program;
use ls_text::NoMemory;
use std::alloc::Global;
use typed_ir::{Linked, SignalId};

// The same words once more.
fn copied(alloc: Global, words: &[u128]) -> Result<Vec<u128>, NoMemory>
    ensures { IfOk result (λ copy. copy.items ≡ words.now) }
{
    let mut copy = Vec::with_capacity(alloc, words.len())?;
    copy.extend_from_slice(words)?;
    Ok(copy)
}

// A signal's own place among the words: one above its number, and 0 for one that isn't there.
fn own_place(layout: &Layout, signal: SignalId) -> usize
    ensures { result ≡ (own_plan layout.now).slot signal }
{
    let number = signal.index();
    match layout.widths.get(number) {
        Some(_) => number + 1,
        None => 0,
    }
}

/// The place that lies so many words above one.
pub(crate) fn place_above(place: usize, count: usize, end: usize) -> usize
    requires { place + count < end }
    ensures { result ≡ place + count }
{
    place + count
}

// Where a place is moved to.
fn placed(places: &[u32], place: usize) -> usize
    ensures { result ≡ moved places.now place }
{
    match places.get(place) {
        Some(to) => *to as usize,
        None => place,
    }
}

// The word at a place.
fn word_at(words: &[u128], place: usize) -> u128
    requires { place < length words.now }
    ensures { result ≡ env_of words.now place }
{
    words[place]
}

// Writes a word.
#[tactic(auto, using(word_steps::proofs::Words::word_set))]
fn put_word(words: &mut [u128], place: usize, value: u128)
    requires { place < length words.old }
    ensures { env_of words.new ≡ put (env_of words.old) place value }
{
    words[place] = value;
}

impl Program {
    /// The words that a run begins with: constants at their places, and all else 0.
    pub fn begin(&self, alloc: Global, linked: &Linked) -> Result<Vec<u128>, NoMemory>
        requires { ∥ IsProgramOf self.now linked.now ∥₁ }
        ensures long { IfOk result (λ words. length words.items ≡ length self.now.beginning.items) }
        ensures ready { IfOk result (λ words. IsAt self.now linked.now [] [] words.items) }
    {
        let _linked = linked;
        copied(alloc, &self.beginning)
    }

    /// The value that a signal has among the words. It fits the signal's width where all values do.
    pub fn value(&self, linked: &Linked, signal: SignalId, words: &[u128]) -> u128
        requires program { ∥ IsProgramOf self.now linked.now ∥₁ }
        requires long { length words.now ≡ length self.now.beginning.items }
        ensures value { result ≡ values_in self.now words.now signal }
        ensures fits { AreHeld self.now linked.now words.now → signal < length linked.now.design.signals.items
            → result < 2 ^ slice_index (signal_widths linked.now.design.signals.items) signal }
    {
        let _linked = linked;
        let place = own_place(&self.layout, signal);
        word_at(words, placed(&self.places, place))
    }

    /// Gives a signal a value that fits its width, and leaves all others. It is the signal's next value too.
    pub fn put(&self, linked: &Linked, signal: SignalId, value: u128, words: &mut [u128])
        requires program { ∥ IsProgramOf self.now linked.now ∥₁ }
        requires long { length words.old ≡ length self.now.beginning.items }
        requires there { signal < length linked.now.design.signals.items }
        requires fits { value < 2 ^ slice_index (signal_widths linked.now.design.signals.items) signal }
        ensures value { values_in self.now words.new ≡ put (values_in self.now words.old) signal value }
        ensures held { AreHeld self.now linked.now words.old → AreHeld self.now linked.now words.new }
    {
        let _linked = linked;
        let place = own_place(&self.layout, signal);
        let next = place_above(place, self.layout.widths.len(), words.len());
        let first = placed(&self.places, place);
        let second = placed(&self.places, next);
        put_word(words, first, value);
        put_word(words, second, value);
    }
}
