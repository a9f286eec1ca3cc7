// What slots and the words of states say of each other.
ghost use Rattle.std.specs.Prelude.{◌≡◌, ◌≤◌, ◌<◌, ◌+◌, ℕ, List, length, slice_index};
ghost use Rattle.state_layout.specs.Words.{words_of};
ghost use Rattle.state_layout.specs.Slots.{slot_size, first_word, state_in, state_words, state_widths, Fit};

/// Slots stand apart: each ends before any one behind it begins, and within the words of a state.
pub fn slots_stand_apart()
    ensures apart { (widths : List ℕ) (j k : ℕ) → j < k → k < length widths
        → first_word widths j + slot_size (slice_index widths j) ≤ first_word widths k }
    ensures within { (widths : List ℕ) (k : ℕ) → k < length widths
        → first_word widths k + slot_size (slice_index widths k) ≤ words_of widths }
{}

/// The words of a state are as many as its slots have together, and give the state back.
pub fn words_give_states()
    ensures many { (s : List (ℕ × ℕ)) → length (state_words s) ≡ words_of (state_widths s) }
    ensures back { (s : List (ℕ × ℕ)) → Fit s → state_in (state_widths s) (state_words s) ≡ s }
{}
