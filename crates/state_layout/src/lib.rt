// The states of a design as words: each register has a slot of its own.
//
// `laying_out` gives the registers of a design their `slot`s, one behind the other, where they have room: a `layout`. `laws` says that slots stand
// apart. `slot_state` is a state in shared pages by such a layout, `putting` reads and writes its slots.
#![tactic(auto)]

mod laws;
mod laying_out;
mod layout;
mod putting;
mod slot;
mod slot_state;

pub use laws::{slots_stand_apart, words_give_states};
pub use laying_out::{laid_out, layout_of};
pub use layout::Layout;
pub use slot::Slot;
pub use slot_state::SlotState;
