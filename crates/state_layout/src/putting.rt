// Values of registers in pages, by their slots: read and written.
ghost use Rattle.std.specs.Prelude.{◌≡◌, ◌≤◌, ◌<◌, ◌+◌, ◌^◌, ◌++◌, length, take, drop, OnOk, OnErr};
ghost use Rattle.state_layout.specs.Slots.{slot_size, number_of, words_for};

use crate::slot::Slot;
use ls_text::NoMemory;
use state_pages::Pages;

// One more than the greatest word.
const WORD: u128 = 1 << 64;

/// The number that the words of a slot are.
pub(crate) fn slot_value(pages: &Pages, slot: Slot) -> u128
    requires { slot.first + slot_size slot.width ≤ length pages.now }
    ensures { result ≡ number_of (take (slot_size slot.width) (drop slot.first pages.now)) }
{
    let low = u128::from(pages.word(slot.first));
    if slot.width <= 64 {
        return low;
    }
    let high = u128::from(pages.word(slot.first + 1));
    low + WORD * high
}

/// Writes a value into its slot, and nothing else. After want of memory all words are as before.
pub(crate) fn put_value(pages: &mut Pages, slot: Slot, value: u128) -> Result<(), NoMemory>
    requires within { slot.first + slot_size slot.width ≤ length pages.old }
    requires fits { value < 2 ^ slot.width }
    ensures ok { OnOk result (pages.new ≡ take slot.first pages.old
        ++ words_for (slot_size slot.width) value ++ drop (slot.first + slot_size slot.width) pages.old) }
    ensures err { OnErr result (pages.new ≡ pages.old) }
{
    if slot.width <= 64 {
        return pages.replace_word(slot.first, value as u64);
    }
    let low = (value % WORD) as u64;
    let high = (value / WORD) as u64;
    pages.replace_two(slot.first, low, high)
}
