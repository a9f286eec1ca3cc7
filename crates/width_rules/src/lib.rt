// Sizes, signs and constants of expressions, and what an item mentions.
//
// `naming` has the names in reach of a `scope`, each with what it stands for (`entry`; of a net or variable a `signal_entry`, which has what may
// write it, the `writer`), and its blocks (`covered`).
//
// `measuring` walks an expression once: its first fault, or what it is so far (`measured`), left open (`opened`) until its context's length and sign
// are known, or at its own ones (`self_determined`). It is told where a constant is due (`due`). `operators` says what those of a text do (`kinds`:
// those before their operand), and `combining` what those between operands give. `selecting` has selects, each a `target_part`, upward or downward
// (`direction`). `joining` puts the parts of a concatenation together (`joined`, `joined_bits`; all of them are `joined_parts`). `whole` has the
// whole numbers of counts, widths and indices. `sizing` closes what is open in a context, or takes its value. `referring` has names and selects that
// are written. `faults` makes a first fault of a code, a place and a name; `laws` says that names may change.
//
// Mentions are the names of an item's targets and of its reads where they stand in the text, in the order of its sized form. `constants` tells
// whether an index is a constant. `mentioning` walks an expression and `targeting` a target, each adding what it meets to a list (`noting`);
// `walking` does so for a statement, once for its targets and once for its reads (`asked`, `asking`), and keeps where it stands among the items of
// a case (`arm_end`). `blocks` is the call for a block, with a list of each (`mention_lists`). `forms` says in which form a target is shown, and
// which of a block's is the first in the text.
#![tactic(auto, using(crate::proofs::Firsts::earlier, crate::proofs::Firsts::later, crate::proofs::Firsts::neither))]

mod arm_end;
mod asked;
mod asking;
mod blocks;
mod combining;
mod constants;
mod covered;
mod direction;
mod due;
mod entry;
mod faults;
mod forms;
mod joined;
mod joined_bits;
mod joined_parts;
mod joining;
mod kinds;
mod laws;
mod measured;
mod measuring;
mod mention_lists;
mod mentioning;
mod naming;
mod noting;
mod opened;
mod operators;
mod referring;
mod scope;
mod selecting;
mod self_determined;
mod signal_entry;
mod sizing;
mod target_part;
mod targeting;
mod walking;
mod whole;
mod writer;

pub use blocks::block_mentions;
pub use constants::is_constant;
pub use due::Due;
pub use entry::Entry;
pub use faults::{refused, refused_at, refused_of};
pub use forms::{first_number, reference_form, statement_form, target_form};
pub use laws::names_may_change;
pub use measured::Measured;
pub use measuring::{measure, own};
pub use mention_lists::BlockMentions;
pub use opened::close;
pub use referring::size_reference;
pub use scope::Scope;
pub use self_determined::Own;
pub use signal_entry::SignalEntry;
pub use sizing::{constant, size_expr};
pub use target_part::TargetPart;
pub use targeting::{connection_mentions, target_mentions};
pub use whole::{Whole, whole_number};
pub use writer::Writer;
